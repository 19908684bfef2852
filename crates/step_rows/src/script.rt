//! What a row calls and replies.
use crate::replies::reply_of;
use ir_meaning::Reply;
use std::alloc::Global;

/// What stands before the text of a module.
const BETWEEN: &str = "; --\n";

/// After how many steps a root is left, where a row says nothing else.
const LIMIT: u64 = 1 << 40;

/// The roots of a row, each a name with its arguments, the replies in their order, and after how many steps each root is
/// left.
#[derive(Debug, Drop)]
pub(crate) struct Script<'t> {
    pub(crate) calls: Vec<&'t str>,
    pub(crate) replies: Vec<Reply>,
    pub(crate) limit: u64,
}

/// The script of a row: its lines before the first module. `None` where one of them is none. The error is want of memory.
pub(crate) fn read_script<'t>(alloc: Global, row: &'t str) -> anyhow::Result<Option<Script<'t>>> {
    let (head, _modules) = row.split_once(BETWEEN).unwrap_or((row, ""));
    let mut script = Script {
        calls: Vec::new(alloc),
        replies: Vec::new(alloc),
        limit: LIMIT,
    };
    for line in head.lines().skip(1) {
        if !add_line(alloc, &mut script, line)? {
            return Ok(None);
        }
    }
    Ok(Some(script))
}

// Adds what a line says. Answers whether it says anything.
fn add_line<'t>(alloc: Global, script: &mut Script<'t>, line: &'t str) -> anyhow::Result<bool> {
    if let Some(call) = line.strip_prefix("; call ") {
        script.calls.push(call)?;
        return Ok(true);
    }
    if let Some(text) = line.strip_prefix("; reply ") {
        return match reply_of(alloc, text)? {
            Some(reply) => {
                script.replies.push(reply)?;
                Ok(true)
            }
            None => Ok(false),
        };
    }
    let limit = line
        .strip_prefix("; limit ")
        .and_then(|word| word.parse::<u64>().ok());
    match limit {
        Some(limit) => {
            script.limit = limit;
            Ok(true)
        }
        None => Ok(false),
    }
}

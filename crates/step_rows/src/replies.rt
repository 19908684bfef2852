//! Replies of a row: `grant`, `refuse`, or what a function returns and then the bytes that it writes. It returns `void`, a
//! number, `null`, or `K+N`: its argument K, N bytes further. A write is `K:AT=BYTE`: a byte at an offset of the block that
//! argument K is in.
use ir_meaning::{Reply, ReplyVal};
use sqlite_items::Items as List;
use std::alloc::Global;

/// The reply that a text says, if it says one. The error is want of memory.
pub(crate) fn reply_of(alloc: Global, text: &str) -> anyhow::Result<Option<Reply>> {
    let (first, rest) = text.split_once(' ').unwrap_or((text, ""));
    match first {
        "grant" => Ok(Some(Reply::Grant(true))),
        "refuse" => Ok(Some(Reply::Grant(false))),
        word => {
            let Some(value) = value_of(word) else {
                return Ok(None);
            };
            let Some(writes) = writes_of(alloc, rest)? else {
                return Ok(None);
            };
            Ok(Some(Reply::Give { value, writes }))
        }
    }
}

fn value_of(word: &str) -> Option<ReplyVal> {
    match word {
        "void" => Some(ReplyVal::Void),
        "null" => Some(ReplyVal::Null),
        number => match number.split_once('+') {
            Some((place, offset)) => Some(ReplyVal::Arg(place.parse().ok()?, offset.parse().ok()?)),
            None => Some(ReplyVal::Num(number.parse().ok()?)),
        },
    }
}

fn write_of(word: &str) -> Option<(usize, u64, u8)> {
    let (place, rest) = word.split_once(':')?;
    let (offset, byte) = rest.split_once('=')?;
    Some((
        place.parse().ok()?,
        offset.parse().ok()?,
        byte.parse().ok()?,
    ))
}

fn writes_of(alloc: Global, text: &str) -> anyhow::Result<Option<List<(usize, u64, u8)>>> {
    let mut writes = List::new(alloc);
    for word in text.split_whitespace() {
        match write_of(word) {
            Some(write) => writes.push(write)?,
            None => return Ok(None),
        }
    }
    Ok(Some(writes))
}

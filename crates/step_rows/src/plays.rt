//! Programs that run.
ghost use Rattle.std.specs.Prelude.{◌≡◌, OnOk};
ghost use Rattle.ir_meaning.specs.Kept.{IsStateOf, IsRunning};

use crate::calls::enter;
use crate::ends::{add_end, add_left};
use crate::script::Script;
use crate::values::add_asked;
use ir_meaning::{Reply, State, Stepped, Wanted, step};
use ir_syntax::Program;
use std::alloc::Global;

/// What the roots of a script come to. The error is want of memory.
pub(crate) fn played(alloc: Global, p: &Program, script: &Script<'_>) -> anyhow::Result<String> {
    let mut text = String::new(alloc);
    let mut state = State::start(alloc, p)?;
    let mut replies = script.replies.as_slice();
    if script.calls.is_empty() {
        play(alloc, p, &mut state, "", script.limit, replies, &mut text)?;
        return Ok(text);
    }
    for call in script.calls.iter() {
        replies = play(alloc, p, &mut state, call, script.limit, replies, &mut text)?;
    }
    Ok(text)
}

// Calls a root and runs it, unless one still runs. Gives the replies that are left.
fn play<'r>(
    alloc: Global,
    p: &Program,
    state: &mut State,
    call: &str,
    limit: u64,
    replies: &'r [Reply],
    text: &mut String,
) -> anyhow::Result<&'r [Reply]>
    requires started { IsStateOf p.now state.old }
    ensures still { OnOk result (IsStateOf p.now state.new) }
{
    if !text.is_empty() {
        text.push_str("; ")?;
    }
    if state.is_running() {
        text.push_str("not called")?;
        return Ok(replies);
    }
    if enter(alloc, p, state, call)? {
        return run_on(alloc, p, state, limit, replies, text);
    }
    text.push_str("no root")?;
    Ok(replies)
}

// Steps until the root is left.
fn run_on<'r>(
    alloc: Global,
    p: &Program,
    state: &mut State,
    limit: u64,
    replies: &'r [Reply],
    text: &mut String,
) -> anyhow::Result<&'r [Reply]>
    requires started { IsStateOf p.now state.old }
    ensures still { OnOk result (IsStateOf p.now state.new) }
{
    let mut left = replies;
    let mut steps = 0;
    'steps: while steps < limit && state.is_running() {
        let (stepped, behind) = step_on(alloc, p, state, left, text)?;
        left = behind;
        match stepped {
            Stepped::Went => steps += 1,
            end => {
                add_end(alloc, text, &end, steps)?;
                return Ok(left);
            }
        }
    }
    add_left(alloc, text, steps)?;
    Ok(left)
}

// A step, whose call takes its reply where it wants one. Gives the replies that are left.
fn step_on<'r>(
    alloc: Global,
    p: &Program,
    state: &mut State,
    replies: &'r [Reply],
    text: &mut String,
) -> anyhow::Result<(Stepped, &'r [Reply])>
    requires started { IsStateOf p.now state.old }
    requires running { IsRunning state.old }
    ensures still { OnOk result (IsStateOf p.now state.new) }
{
    match step(alloc, p, state, None)? {
        Stepped::Wants(wanted) => answered(alloc, p, state, wanted, replies, text),
        stepped => Ok((stepped, replies)),
    }
}

// The call at hand takes its reply, if there is one. Gives the replies that are left.
fn answered<'r>(
    alloc: Global,
    p: &Program,
    state: &mut State,
    wanted: Wanted,
    replies: &'r [Reply],
    text: &mut String,
) -> anyhow::Result<(Stepped, &'r [Reply])>
    requires started { IsStateOf p.now state.old }
    ensures still { OnOk result (IsStateOf p.now state.new) }
{
    add_asked(alloc, text, &wanted)?;
    match replies.split_first() {
        Some((reply, left)) if state.is_running() => {
            let stepped = step(alloc, p, state, Some(reply))?;
            Ok((stepped, left))
        }
        _ => Ok((Stepped::Wants(wanted), replies)),
    }
}

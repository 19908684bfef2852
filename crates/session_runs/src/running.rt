//! Runs of sessions.
ghost use Rattle.std.specs.Prelude.{◌≡◌, ◌≤◌, ◌<◌, ◌+◌, ◌-◌, ◌^◌, Some, IfOk, OnOk, All};
ghost use Rattle.ir_steps.specs.Reached.{IsRoot};
ghost use Rattle.session_runs.specs.Runs.{run, begun};
ghost use Rattle.session_runs.specs.Mirrors.Progressing.{standing, IsGoing};

use crate::copies::copied_reply;
use crate::progress::Progress;
use crate::{Phase, Run, Session};
use ir_meaning::Reply;
use ir_syntax::Program;
use ir_types::OutOfMemory;
use std::alloc::Global;

/// The run of a session after at most `n` begun steps. Each root is a function with a body, and has a number of its type
/// for each parameter. The error is want of memory.
pub fn run_session(
    alloc: Global,
    p: &Program,
    session: &Session,
    n: u64,
) -> Result<Run, OutOfMemory>
    requires { All (λ root. IsRoot p.now root.func root.args) session.now.roots }
    ensures { IfOk result (λ shown. run p.now session.now n ≡ Some shown) }
{
    let mut progress = Progress::start(alloc, p, session.roots.as_slice())?;
    let mut replies = session.replies.as_slice();
    let mut at = 0;
    'steps: while progress.goes_on(at, n) {
        replies = go(&mut progress, alloc, p, replies)?;
        at += 1;
    }
    Ok(progress.into_run())
}

// Begins a step, which takes the first of the replies where it wants one. Gives the replies that are left.
fn go<'r>(
    progress: &mut Progress<'_>,
    alloc: Global,
    p: &Program,
    replies: &'r [Reply],
) -> Result<&'r [Reply], OutOfMemory>
    requires going { IsGoing p.now progress.old }
    requires running { progress.old.phase ≡ Phase.Running }
    requires room { progress.old.steps < 2 ^ 64 - 1 }
    ensures begun { IfOk result (λ left. begun p.now (standing p.now progress.old replies.now) ≡ Some (standing p.now progress.new left.now)) }
    ensures going { OnOk result (IsGoing p.now progress.new) }
    ensures steps { progress.new.steps ≤ progress.old.steps + 1 }
{
    let call = match progress.begin(alloc, p)? {
        None => return Ok(replies),
        Some(call) => call,
    };
    match replies.split_first() {
        None => {
            progress.wait(call);
            Ok(replies)
        }
        Some((reply, left)) => {
            let reply = copied_reply(alloc, reply)?;
            progress.reply(alloc, p, call, reply)?;
            Ok(left)
        }
    }
}

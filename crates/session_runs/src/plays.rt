//! Plays: runs whose calls a world answers.
ghost use Rattle.std.specs.Prelude.{◌≡◌, ◌≢◌, ◌≤◌, ◌<◌, ◌+◌, ◌-◌, ◌^◌, ◌++◌, ◌∷◌, [], Some, Err, IfOk, IfErr, OnOk, All};
ghost use Rattle.occam_base.specs.Counts.{Rose};
ghost use Rattle.ir_steps.specs.Reached.{IsRoot};
ghost use Rattle.session_runs.specs.Runs.{run, calls};
ghost use Rattle.session_runs.specs.Worlds.{session, Answered, answers_in, Fails};
ghost use Rattle.session_runs.specs.Mirrors.Progressing.{IsGoing, Wants, Replies};
ghost use Rattle.session_runs.specs.Mirrors.Playing.{PlaysOn, PlayFails};

use crate::copies::copied_reply;
use crate::progress::Progress;
use crate::{Phase, Root, Run, World, WorldFault};
use ir_meaning::{Reply, Wanted};
use ir_syntax::Program;
use ir_types::OutOfMemory;
use sqlite_items::Items as List;
use std::alloc::Global;

/// A run, and the replies that its world gave.
#[derive(Debug, Drop)]
pub struct Played {
    pub run: Run,
    pub replies: List<Reply>,
}

/// Runs the roots for at most `n` begun steps, where the world answers each call that wants a reply, in their order. Each
/// root is a function with a body, and has a number of its type for each parameter.
///
/// `Source` and `Sink` are the world's, and come only where its count of that name rose; `OutOfMemory` is want of memory.
pub fn play<W: World>(
    alloc: Global,
    p: &Program,
    roots: &[Root],
    n: u64,
    world: &mut W,
) -> Result<Played, WorldFault>
    requires { All (λ root. IsRoot p.now root.func root.args) roots.now }
    // It is the run of the session that has these replies.
    ensures run { IfOk result (λ played. run p.now (session roots.now played.replies) n ≡ Some played.run) }
    // The world was asked the calls of the run that want a reply, and its answers are the replies, and nothing last where it waits.
    ensures world { IfOk result (λ played. Answered W.answers world.old (calls p.now (session roots.now played.replies) n) (answers_in played.replies played.run.phase) world.new) }
    // After a fault it was asked the first of them.
    ensures fails { IfErr result (λ fault. Fails W.answers W.breaks p.now roots.now n world.old world.new fault) }
    ensures source_rose { result ≡ Err WorldFault.Source → Rose (W.source_faults world.old) (W.source_faults world.new) }
    ensures source_stays { result ≢ Err WorldFault.Source → W.source_faults world.new ≡ W.source_faults world.old }
    ensures sink_rose { result ≡ Err WorldFault.Sink → Rose (W.sink_faults world.old) (W.sink_faults world.new) }
    ensures sink_stays { result ≢ Err WorldFault.Sink → W.sink_faults world.new ≡ W.sink_faults world.old }
{
    let mut progress = match Progress::start(alloc, p, roots) {
        Ok(progress) => progress,
        Err(OutOfMemory) => return Err(WorldFault::OutOfMemory),
    };
    let mut replies = List::new(alloc);
    let mut at = 0;
    'steps: while progress.goes_on(at, n) {
        match play_on(&mut progress, alloc, p, &mut replies, world) {
            Ok(()) => at += 1,
            Err(fault) => return Err(fault),
        }
    }
    Ok(Played {
        run: progress.into_run(),
        replies,
    })
}

// Begins a step, whose call the world answers where it wants a reply.
fn play_on<W: World>(
    progress: &mut Progress<'_>,
    alloc: Global,
    p: &Program,
    replies: &mut List<Reply>,
    world: &mut W,
) -> Result<(), WorldFault>
    requires going { IsGoing p.now progress.old }
    requires running { progress.old.phase ≡ Phase.Running }
    requires room { progress.old.steps < 2 ^ 64 - 1 }
    ensures goes { OnOk result (PlaysOn W.answers p.now progress.old replies.old world.old progress.new replies.new world.new) }
    ensures going { OnOk result (IsGoing p.now progress.new) }
    ensures steps { OnOk result (progress.new.steps ≤ progress.old.steps + 1) }
    ensures fails { IfErr result (λ fault. PlayFails W.answers W.breaks p.now progress.old world.old world.new fault) }
    ensures source_rose { result ≡ Err WorldFault.Source → Rose (W.source_faults world.old) (W.source_faults world.new) }
    ensures source_stays { result ≢ Err WorldFault.Source → W.source_faults world.new ≡ W.source_faults world.old }
    ensures sink_rose { result ≡ Err WorldFault.Sink → Rose (W.sink_faults world.old) (W.sink_faults world.new) }
    ensures sink_stays { result ≢ Err WorldFault.Sink → W.sink_faults world.new ≡ W.sink_faults world.old }
{
    let begun = match progress.begin(alloc, p) {
        Ok(begun) => begun,
        Err(OutOfMemory) => return Err(WorldFault::OutOfMemory),
    };
    let call = match begun {
        None => return Ok(()),
        Some(call) => call,
    };
    let answer = match world.answer(alloc, &call) {
        Ok(answer) => answer,
        Err(fault) => return Err(fault),
    };
    match answer {
        None => {
            progress.wait(call);
            Ok(())
        }
        Some(reply) => match take(progress, alloc, p, replies, call, reply) {
            Ok(()) => Ok(()),
            Err(OutOfMemory) => Err(WorldFault::OutOfMemory),
        },
    }
}

// The call at hand takes its reply, which goes to the end of the replies.
fn take(
    progress: &mut Progress<'_>,
    alloc: Global,
    p: &Program,
    replies: &mut List<Reply>,
    call: Wanted,
    reply: Reply,
) -> Result<(), OutOfMemory>
    requires going { IsGoing p.now progress.old }
    requires running { progress.old.phase ≡ Phase.Running }
    requires room { progress.old.steps < 2 ^ 64 - 1 }
    requires wanted { Wants p.now progress.old (Some call) }
    ensures replied { OnOk result (Replies p.now progress.old reply progress.new) }
    ensures replies { OnOk result (replies.new ≡ replies.old ++ reply ∷ []) }
    ensures going { OnOk result (IsGoing p.now progress.new) }
    ensures steps { progress.new.steps ≤ progress.old.steps + 1 }
{
    replies.push(copied_reply(alloc, &reply)?)?;
    progress.reply(alloc, p, call, reply)
}

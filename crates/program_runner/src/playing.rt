//! Plays over a source and a sink.
ghost use Rattle.std.specs.Prelude.{◌≡◌, ◌≢◌, [], Some, Err, All, IfOk, OnErr};
ghost use Rattle.occam_base.specs.Counts.{Rose};
ghost use Rattle.ir_steps.specs.Reached.{IsRoot};
ghost use Rattle.session_runs.specs.Runs.{run, calls};
ghost use Rattle.session_runs.specs.Worlds.{session, answers_in};
ghost use Rattle.session_runs.specs.Tiny.{Written};
ghost use Rattle.program_runner.specs.TinyRuns.{AreAnswers, text_of};
ghost use Rattle.program_runner.specs.Mirrors.Playing.{IsPlayed, IsBroken};

use ir_syntax::Program;
use occam_base::{Fault, Sink, Source};
use session_runs::{Pending, Played, Root, Run, TinyWorld, WorldFault, play};
use std::alloc::Global;

/// Runs the roots for at most `n` begun steps with the small world over a source and a sink, and writes all that waits at
/// the end. `Source` and `Sink` come only where the count of that name rose.
pub fn play_roots<I: Source, O: Sink>(
    alloc: Global,
    p: &Program,
    roots: &[Root],
    n: u64,
    input: &mut I,
    out: &mut O,
) -> Result<Run, WorldFault>
    requires { All (λ root. IsRoot p.now root.func root.args) roots.now }
    ensures played { IfOk result (λ shown. IsPlayed p.now roots.now n (I.left input.old) (O.taken out.old) (O.taken out.new) shown) }
    ensures broken { OnErr result (IsBroken p.now roots.now n (I.left input.old) (O.taken out.old) (O.taken out.new)) }
    ensures source_rose { result ≡ Err WorldFault.Source → Rose (I.faults input.old) (I.faults input.new) }
    ensures source_stays { result ≢ Err WorldFault.Source → I.faults input.new ≡ I.faults input.old }
    ensures sink_rose { result ≡ Err WorldFault.Sink → Rose (O.faults out.old) (O.faults out.new) }
    ensures sink_stays { result ≢ Err WorldFault.Sink → O.faults out.new ≡ O.faults out.old }
{
    let mut pending = Pending::new(alloc);
    let mut world = TinyWorld::new(input, out, &mut pending);
    let run = match play_small(alloc, p, roots, n, &mut world) {
        Ok(played) => played.run,
        Err(fault) => return Err(fault),
    };
    match world.flush() {
        Ok(()) => Ok(run),
        Err(Fault::Failed) => Err(WorldFault::Sink),
        Err(Fault::OutOfMemory) => Err(WorldFault::OutOfMemory),
    }
}

// Runs the roots with a small world, in which nothing waits at first.
fn play_small<I: Source, O: Sink>(
    alloc: Global,
    p: &Program,
    roots: &[Root],
    n: u64,
    world: &mut TinyWorld<'_, I, O>,
) -> Result<Played, WorldFault>
    requires roots { All (λ root. IsRoot p.now root.func root.args) roots.now }
    requires none_waits { world.old.pending.now ≡ [] }
    ensures same_source { world.new.source.ghost_name ≡ world.old.source.ghost_name }
    ensures same_sink { world.new.sink.ghost_name ≡ world.old.sink.ghost_name }
    ensures same_pending { world.new.pending.ghost_name ≡ world.old.pending.ghost_name }
    ensures run { IfOk result (λ played. run p.now (session roots.now played.replies) n ≡ Some played.run) }
    ensures answered { IfOk result (λ played. AreAnswers (I.left world.old.source.now) (calls p.now (session roots.now played.replies) n) (answers_in played.replies played.run.phase)) }
    ensures written { IfOk result (λ played. Written (O.taken world.old.sink.now) (O.taken world.new.sink.now) [] world.new.pending.now (text_of (calls p.now (session roots.now played.replies) n))) }
    ensures broken { OnErr result (IsBroken p.now roots.now n (I.left world.old.source.now) (O.taken world.old.sink.now) (O.taken world.new.sink.now)) }
    ensures source_rose { result ≡ Err WorldFault.Source → Rose (I.faults world.old.source.now) (I.faults world.new.source.now) }
    ensures source_stays { result ≢ Err WorldFault.Source → I.faults world.new.source.now ≡ I.faults world.old.source.now }
    ensures sink_rose { result ≡ Err WorldFault.Sink → Rose (O.faults world.old.sink.now) (O.faults world.new.sink.now) }
    ensures sink_stays { result ≢ Err WorldFault.Sink → O.faults world.new.sink.now ≡ O.faults world.old.sink.now }
{
    play(alloc, p, roots, n, world)
}

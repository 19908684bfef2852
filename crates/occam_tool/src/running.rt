//! `run`: runs the program of a manifest, and prints how that ended.
ghost use Rattle.std.specs.Prelude.{◌≡◌, ◌≢◌, false, IfSome};
ghost use Rattle.occam_base.specs.Counts.{Rose};
ghost use Rattle.occam_tool.specs.Outcome.{is_free};
ghost use Rattle.occam_tool.specs.Program.{CanRun, NamesFile, TakesRefusal};
ghost use Rattle.occam_tool.specs.Runnings.{RunEnds, SourceBroke, SinkBroke};

use crate::refusing::out_of_memory;
use crate::telling::{refuse, refuse_run, run_done};
use ir_types::{Bytes, OutOfMemory};
use occam_base::{Code, Shelf, Sink, Source};
use program_runner::run;
use std::alloc::Global;
use std::thread::Threads;

/// Runs the program of the manifest from its entry for at most `steps` steps, and prints how the run ended.
pub fn run_program<R: Threads + Sync, S: Shelf, I: Source, O: Sink>(
    rt: &R,
    alloc: Global,
    manifest: &str,
    steps: u64,
    args: &[i128],
    shelf: &mut S,
    input: &mut I,
    out: &mut O,
) -> Code
    ensures not_usage { result ≢ Code.Usage }
    ensures statuses { CanRun result }
    ensures outcome { is_free result ≡ false → IfSome (S.files shelf.old) (λ files.
        RunEnds files (S.files shelf.new) manifest.now steps args.now (I.left input.old) (O.taken out.old) (O.taken out.new) (O.faults out.old) (O.faults out.new) result) }
    ensures read_fault { result ≡ Code.ReadFault → Rose (S.read_faults shelf.old) (S.read_faults shelf.new) }
    ensures unread { result ≡ Code.ReadFault → (Rose (O.faults out.old) (O.faults out.new) → ⊥) → IfSome (S.files shelf.old) (λ files.
        NamesFile files manifest.now (O.taken out.old) (O.taken out.new)) }
    ensures files { S.files shelf.new ≡ S.files shelf.old }
    ensures puts { S.put_faults shelf.new ≡ S.put_faults shelf.old }
    ensures source_rose { result ≡ Code.SourceFault → Rose (I.faults input.old) (I.faults input.new) }
    ensures source_stays { result ≢ Code.SourceFault → result ≢ Code.OutOfMemory → I.faults input.new ≡ I.faults input.old }
    ensures source_broken { result ≡ Code.SourceFault → (Rose (O.faults out.old) (O.faults out.new) → ⊥) → IfSome (S.files shelf.old) (λ files.
        SourceBroke files manifest.now steps args.now (I.left input.old) (O.taken out.old) (O.taken out.new)) }
    ensures print_fault { result ≡ Code.PrintFault → Rose (O.faults out.old) (O.faults out.new) }
    ensures print_broken { result ≡ Code.PrintFault → IfSome (S.files shelf.old) (λ files.
        SinkBroke files manifest.now steps args.now (I.left input.old) (O.taken out.old) (O.taken out.new)) }
    ensures refusal { result ≢ Code.Done → result ≢ Code.PrintFault → result ≢ Code.SourceFault → result ≢ Code.OutOfMemory
        → (Rose (O.faults out.old) (O.faults out.new) → ⊥) → TakesRefusal (O.taken out.old) (O.taken out.new) result }
{
    let name = match Bytes::from_slice(alloc, manifest.as_bytes()) {
        Ok(name) => name,
        Err(OutOfMemory) => return refuse(alloc, out, &out_of_memory()),
    };
    match run(rt, alloc, &name, steps, args, shelf, input, out) {
        Ok(ended) => run_done(alloc, out, &ended),
        Err(refusal) => refuse_run(alloc, out, &refusal),
    }
}

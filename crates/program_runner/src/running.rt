//! `run`: what a program does from its entry.
ghost use Rattle.std.specs.Prelude.{◌≡◌, ◌≢◌, ℕ, List as Words, Some, IsUtf8, IfErr, IfSome};
ghost use Rattle.occam_base.specs.Files.{FileMap};
ghost use Rattle.ir_syntax.specs.Programs.{IsProgram};
ghost use Rattle.program_loader.specs.Loading.{IsLoaded};
ghost use Rattle.occam_base.specs.Counts.{Rose};
ghost use Rattle.program_loader.specs.Refusing.{ReadsAlone, CanRefuse, code_of, refusal};
ghost use Rattle.program_runner.specs.Running.{RunGives, CanRefuseRun};
ghost use Rattle.program_runner.specs.Mirrors.Playing.{fault_code};

use crate::Ended;
use crate::ended::ended_of;
use crate::entering::{entry_of, entry_root};
use crate::playing::play_roots;
use ir_types::Bytes;
use occam_base::{Code, Shelf, Sink, Source};
use program_loader::{Detail, Loaded, Refusal, load};
use session_runs::WorldFault;
use std::alloc::Global;
use std::slice;
use std::thread::Threads;

/// Reads the manifest and all its modules, checks and links them, and runs the entry for at most `steps` steps with the
/// manifest's arguments, and with one of `args`, in order, for each that the manifest leaves unknown. `putchar` and `puts`
/// write to `out`, `getchar` reads from `input`, and all memory is granted. No file changes.
///
/// The refusals are those of `program_loader::load`, in its order, and then `EntryShape` where there are too few `args` or
/// too many, or one isn't from -2^(w-1) to 2^w - 1. `SourceFault` and `PrintFault` come only where the source's and the
/// sink's count rose. `OutOfMemory` may come anywhere.
pub fn run<R: Threads + Sync, S: Shelf, I: Source, O: Sink>(
    _rt: &R,
    alloc: Global,
    manifest: &Bytes,
    steps: u64,
    args: &[i128],
    shelf: &mut S,
    input: &mut I,
    out: &mut O,
) -> Result<Ended, Refusal>
    requires manifest { IsUtf8 manifest.now }

    // Where the shelf tells its files, the answer is that of the definition, and so is what the sink took.
    ensures gives { IfSome (S.files shelf.old) (λ files. RunGives files manifest.now steps args.now (I.left input.old) (O.taken out.old) (O.taken out.new) result) }
    ensures codes { IfErr result (λ r. CanRefuseRun r.code) }
    // A refusal of the program or of its arguments prints nothing.
    ensures untouched { IfErr result (λ r. CanRefuse r.code → r.code ≢ Code.OutOfMemory → O.taken out.new ≡ O.taken out.old) }
    // No file changes.
    ensures alone { ReadsAlone (code_of result) (S.files shelf.old) (S.files shelf.new) (S.read_faults shelf.old) (S.read_faults shelf.new) (S.put_faults shelf.old) (S.put_faults shelf.new) }
    // A fault of the source or of the sink is answered exactly where its count rose.
    ensures source_rose { code_of result ≡ Some Code.SourceFault → Rose (I.faults input.old) (I.faults input.new) }
    ensures source_stays { code_of result ≢ Some Code.SourceFault → I.faults input.new ≡ I.faults input.old }
    ensures sink_rose { code_of result ≡ Some Code.PrintFault → Rose (O.faults out.old) (O.faults out.new) }
    ensures sink_stays { code_of result ≢ Some Code.PrintFault → O.faults out.new ≡ O.faults out.old }
{
    match load(alloc, manifest.as_slice(), shelf) {
        Ok(loaded) => run_loaded(alloc, &loaded, steps, args, input, out),
        Err(refusal) => Err(refusal),
    }
}

// Runs the entry of a loaded program.
fn run_loaded<I: Source, O: Sink>(
    alloc: Global,
    loaded: &Loaded,
    steps: u64,
    args: &[i128],
    input: &mut I,
    out: &mut O,
) -> Result<Ended, Refusal>
    requires program { IsProgram loaded.now.program }
    ensures gives { (files : FileMap) (name : Words ℕ) → IsLoaded files name loaded.now.manifest loaded.now.program
        → RunGives files name steps args.now (I.left input.old) (O.taken out.old) (O.taken out.new) result }
    ensures codes { IfErr result (λ r. CanRefuseRun r.code) }
    ensures read { IfErr result (λ r. r.code ≢ Code.ReadFault) }
    ensures untouched { IfErr result (λ r. CanRefuse r.code → r.code ≢ Code.OutOfMemory → O.taken out.new ≡ O.taken out.old) }
    ensures source_rose { code_of result ≡ Some Code.SourceFault → Rose (I.faults input.old) (I.faults input.new) }
    ensures source_stays { code_of result ≢ Some Code.SourceFault → I.faults input.new ≡ I.faults input.old }
    ensures sink_rose { code_of result ≡ Some Code.PrintFault → Rose (O.faults out.old) (O.faults out.new) }
    ensures sink_stays { code_of result ≢ Some Code.PrintFault → O.faults out.new ≡ O.faults out.old }
{
    let func = entry_of(&loaded.program);
    let root = match entry_root(alloc, loaded, func, args) {
        Ok(root) => root,
        Err(refusal) => return Err(refusal),
    };
    let roots = slice::from_ref(&root);
    match play_roots(alloc, &loaded.program, roots, steps, input, out) {
        Ok(shown) => Ok(ended_of(func.returns, shown)),
        Err(fault) => Err(broken(fault)),
    }
}

// The refusal of a failure of the world.
fn broken(fault: WorldFault) -> Refusal
    ensures { result ≡ refusal (fault_code fault) Detail.Nothing }
{
    let code = match fault {
        WorldFault::Source => Code::SourceFault,
        WorldFault::Sink => Code::PrintFault,
        WorldFault::OutOfMemory => Code::OutOfMemory,
    };
    Refusal {
        code,
        detail: Detail::Nothing,
    }
}

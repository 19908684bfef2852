//! `winnow`: from a manifest's file to the written module and the report.
ghost use Rattle.std.specs.Prelude.{◌≡◌, ◌≢◌, ◌⊎◌, false, IsUtf8, IfSome, IfErr, Some, None};
ghost use Rattle.occam_base.specs.Counts.{Rose};
ghost use Rattle.occam_tool.specs.Lines.{answer_code};
ghost use Rattle.occam_tool.specs.Outcome.{Leaves, is_free};
ghost use Rattle.program_loader.specs.Refusing.{code_of};
ghost use Rattle.occam_tool.specs.Steps.{PutGives, CanEnd};

use crate::left::{leave, read_module};
use crate::path::{as_text, path_of};
use crate::plan::read_plan;
use crate::refusing::{out_of_memory, unplanned};
use crate::{Detail, Job, Refusal, Report};
use ir_types::{Bytes, OutOfMemory};
use occam_base::{Code, Fault, Gate, Shelf};
use std::alloc::Global;
use std::thread::Threads;

/// Reads the manifest and its module, and writes `OUTDIR/name` with the functions and copies that the entry needs
/// for its arguments. Nothing is written before the module is accepted.
///
/// Refusals: `ReadFault` and `WriteFault` where a read or the write failed, `Absent` where a file isn't there,
/// `NotInSubset` where the manifest or the module isn't of the form, `TooManyDemands` where more than 65,536
/// functions and copies are needed, `TooMuchCode` where they have more than 8,388,608 instructions and terminators,
/// and `OutOfMemory`.
pub fn winnow<R: Threads + Sync, S: Shelf, G: Gate>(
    _rt: &R,
    alloc: Global,
    job: &Job,
    shelf: &mut S,
    _gate: &G,
) -> Result<Report, Refusal>
    requires manifest { IsUtf8 job.now.manifest }
    requires outdir { IsUtf8 job.now.outdir }

    // Where the shelf tells its files, the answer and the files at exit are those of the definition.
    ensures answer { is_free (answer_code result) ≡ false → IfSome (S.files shelf.old) (λ files.
        Leaves files (S.files shelf.new) job.now.manifest job.now.outdir result) }
    ensures codes { CanEnd (answer_code result) }
    ensures never_done { IfErr result (λ r. r.code ≢ Code.Done) }

    // A fault is answered only where its count rose, and no refusal but of a write leaves a file changed.
    ensures read_fault { answer_code result ≡ Code.ReadFault → Rose (S.read_faults shelf.old) (S.read_faults shelf.new) }
    ensures write_fault { answer_code result ≡ Code.WriteFault → Rose (S.put_faults shelf.old) (S.put_faults shelf.new) }
    ensures unchanged { answer_code result ≢ Code.Done → answer_code result ≢ Code.WriteFault → S.files shelf.new ≡ S.files shelf.old }
    ensures reads_quiet { answer_code result ≢ Code.ReadFault → answer_code result ≢ Code.OutOfMemory → S.read_faults shelf.new ≡ S.read_faults shelf.old }
    ensures puts_quiet { answer_code result ≢ Code.WriteFault → answer_code result ≢ Code.OutOfMemory → S.put_faults shelf.new ≡ S.put_faults shelf.old }
{
    let plan = match read_plan(alloc, shelf, &job.manifest) {
        Ok(plan) => plan,
        Err(refusal) => return Err(refusal),
    };
    let module = match read_module(alloc, shelf, &plan) {
        Ok(module) => module,
        Err(refusal) => return Err(refusal),
    };
    let left = match leave(alloc, module, plan.entry.as_slice(), plan.args.as_slice()) {
        Ok(left) => left,
        Err(fault) => return Err(unplanned(fault)),
    };
    match put_output(alloc, shelf, &job.outdir, &plan.file, &left.text) {
        Ok(()) => Ok(left.report),
        Err(refusal) => Err(refusal),
    }
}

// Puts the bytes of one written module under `OUTDIR/name`.
fn put_output<S: Shelf>(
    alloc: Global,
    shelf: &mut S,
    outdir: &Bytes,
    file: &Bytes,
    text: &Bytes,
) -> Result<(), Refusal>
    requires outdir { IsUtf8 outdir.now }
    requires file { IsUtf8 file.now }
    ensures gives { PutGives (S.files shelf.old) (S.files shelf.new) outdir.now file.now text.now result }
    ensures codes { (code_of result ≡ None) ⊎ ((code_of result ≡ Some Code.WriteFault) ⊎ (code_of result ≡ Some Code.OutOfMemory)) }
    ensures failed { code_of result ≡ Some Code.WriteFault → Rose (S.put_faults shelf.old) (S.put_faults shelf.new) }
    ensures quiet { code_of result ≡ None → S.put_faults shelf.new ≡ S.put_faults shelf.old }
    ensures out_of_memory { code_of result ≡ Some Code.OutOfMemory → S.files shelf.new ≡ S.files shelf.old }
    ensures reads { S.read_faults shelf.new ≡ S.read_faults shelf.old }
{
    let path = match path_of(alloc, as_text(outdir.as_slice()), as_text(file.as_slice())) {
        Ok(path) => path,
        Err(OutOfMemory) => return Err(out_of_memory()),
    };
    // What a refusal names is made before the put, so that want of memory leaves every file.
    let name = match Bytes::from_slice(alloc, path.as_str().as_bytes()) {
        Ok(name) => name,
        Err(OutOfMemory) => return Err(out_of_memory()),
    };
    match shelf.put(path.as_str(), text.as_slice()) {
        Ok(()) => Ok(()),
        Err(Fault::OutOfMemory) => Err(out_of_memory()),
        Err(Fault::Failed) => Err(Refusal {
            code: Code::WriteFault,
            detail: Detail::File(name),
        }),
    }
}

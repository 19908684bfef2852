//! The top call.
ghost use Rattle.std.specs.Prelude.{◌≡◌, ◌≢◌, ◌⊎◌, false, None, map, string_bytes, IfSome, IfOk};
ghost use Rattle.occam_base.specs.Counts.{Rose};
ghost use Rattle.command_words.specs.Words.{command_of as command_of_words, IsWinnow, IsRun, OnlyReads};
ghost use Rattle.occam_tool.specs.Outcome.{is_free};
ghost use Rattle.occam_tool.specs.Program.{Ends, CanExit, CanWinnow, CanCheck, TakesRefusal, NamesFile, NamesUnread, BreaksRun, CutsRun};
ghost use Rattle.occam_tool.specs.Checkings.{CheckEnds};
ghost use Rattle.occam_tool.specs.Winnowings.{WinnowEnds};
ghost use Rattle.occam_tool.specs.Keeping.{Keeps};

use crate::checking::check;
use crate::refusing::out_of_memory;
use crate::running::run_program;
use crate::telling::{check_done, refuse, report_done};
use crate::winnowing::winnow;
use crate::{Detail, Job, Refusal};
use command_words::{Command, command_of};
use ir_parser::a_text_spells_one_module;
use ir_types::{Bytes, OutOfMemory};
use ir_writer::straight_modules_are_written;
use occam_base::{Code, Gate, Shelf, Sink, Source};
use round_trip::what_is_written_is_read_again;
use std::alloc::Global;
use std::thread::Threads;
use straight_fold::least_plan_is_a_plan;
use straight_leave::what_is_left_is_straight;
use straight_meaning::{meaning_is_kept, run_goes_on};
use straight_reader::the_form_is_straight;

/// Does what the words of the command line ask for, and prints a line to the sink.
///
/// `winnow MANIFEST OUTDIR` winnows the program of the manifest; until whole programs are winnowed, that is one module of
/// straight-line functions. `check MANIFEST` reads, checks and links the program of the manifest, and counts what it
/// defines. `run MANIFEST STEPS ARG...` runs the linked program from its entry for at most `STEPS` steps; what it writes
/// goes to the sink before the line, and `getchar` reads from the source. Every other list of words is `Usage`. The
/// program's own name isn't among the words. `OutOfMemory` may come anywhere; every other status has its cause in a clause.
pub fn tool<R: Threads + Sync, S: Shelf, I: Source, O: Sink, G: Gate>(
    rt: &R,
    alloc: Global,
    words: &[String],
    shelf: &mut S,
    input: &mut I,
    out: &mut O,
    gate: &G,
) -> Code
    // Usage comes exactly where the words are no command.
    ensures usage_only { result ≡ Code.Usage → command_of_words (map (λ w. string_bytes w) words.now) ≡ None }
    ensures usage { command_of_words (map (λ w. string_bytes w) words.now) ≡ None → (result ≡ Code.Usage) ⊎ (result ≡ Code.OutOfMemory) }
    ensures statuses { CanExit (command_of_words (map (λ w. string_bytes w) words.now)) result }

    // Where the shelf tells its files, a status other than want of memory and a fault is that of the outcome of
    // the words over the files and the source at entry, and so are the files at exit and what is printed.
    ensures outcome { is_free result ≡ false → IfSome (S.files shelf.old) (λ files.
        Ends (map (λ w. string_bytes w) words.now) files (S.files shelf.new) (I.left input.old) (O.taken out.old) (O.taken out.new) (O.faults out.old) (O.faults out.new) result) }

    // On Done of `winnow` the written text spells what is left, and no other module, and that means what the original means.
    ensures kept { IsWinnow (command_of_words (map (λ w. string_bytes w) words.now)) → result ≡ Code.Done → IfSome (S.files shelf.old) (λ files.
        Keeps (map (λ w. string_bytes w) words.now) files (S.files shelf.new)) }

    // A fault is answered only where its count rose.
    ensures read_fault { result ≡ Code.ReadFault → Rose (S.read_faults shelf.old) (S.read_faults shelf.new) }
    ensures write_fault { result ≡ Code.WriteFault → Rose (S.put_faults shelf.old) (S.put_faults shelf.new) }
    ensures print_fault { result ≡ Code.PrintFault → Rose (O.faults out.old) (O.faults out.new) }
    ensures source_fault { result ≡ Code.SourceFault → Rose (I.faults input.old) (I.faults input.new) }
    ensures source_stays { result ≢ Code.SourceFault → result ≢ Code.OutOfMemory → I.faults input.new ≡ I.faults input.old }

    // `check` and `run` change no file, told or not, and a fault of reading names the file.
    ensures only_reads { OnlyReads (command_of_words (map (λ w. string_bytes w) words.now)) → S.files shelf.new ≡ S.files shelf.old }
    ensures no_puts { OnlyReads (command_of_words (map (λ w. string_bytes w) words.now)) → S.put_faults shelf.new ≡ S.put_faults shelf.old }
    ensures unread { result ≡ Code.ReadFault → (Rose (O.faults out.old) (O.faults out.new) → ⊥) → IfSome (S.files shelf.old) (λ files.
        NamesUnread (command_of_words (map (λ w. string_bytes w) words.now)) files (O.taken out.old) (O.taken out.new)) }
    // Where the source or the sink fails in `run`, the sink has a front of what the run prints.
    ensures source_broken { result ≡ Code.SourceFault → (Rose (O.faults out.old) (O.faults out.new) → ⊥) → IfSome (S.files shelf.old) (λ files.
        BreaksRun (command_of_words (map (λ w. string_bytes w) words.now)) files (I.left input.old) (O.taken out.old) (O.taken out.new)) }
    ensures print_broken { result ≡ Code.PrintFault → IfSome (S.files shelf.old) (λ files.
        CutsRun (command_of_words (map (λ w. string_bytes w) words.now)) files (I.left input.old) (O.taken out.old) (O.taken out.new)) }
    // No command but `run` touches the source.
    ensures input { (IsRun (command_of_words (map (λ w. string_bytes w) words.now)) → ⊥) → input.new ≡ input.old }

    // No file changes with a refusal but that of a write.
    ensures unchanged { result ≢ Code.Done → result ≢ Code.WriteFault → result ≢ Code.PrintFault → result ≢ Code.OutOfMemory
        → S.files shelf.new ≡ S.files shelf.old }
    // A refusal's line is taken, unless its print failed; that of the source stands behind what the run wrote.
    ensures refusal { result ≢ Code.Done → result ≢ Code.PrintFault → result ≢ Code.SourceFault → result ≢ Code.OutOfMemory
        → (Rose (O.faults out.old) (O.faults out.new) → ⊥) → TakesRefusal (O.taken out.old) (O.taken out.new) result }
{
    // The laws that the clause `kept` rests on; they run no code.
    the_form_is_straight();
    least_plan_is_a_plan();
    what_is_left_is_straight();
    straight_modules_are_written();
    what_is_written_is_read_again();
    a_text_spells_one_module();
    meaning_is_kept();
    run_goes_on();
    match command_of(alloc, words) {
        Ok(Some(Command::Winnow { manifest, outdir })) => run_winnow(
            rt, alloc, manifest, outdir, shelf, out, gate,
        ),
        Ok(Some(Command::Check { manifest })) => run_check(rt, alloc, manifest, shelf, out),
        Ok(
            Some(
                Command::Run {
                    manifest,
                    steps,
                    args,
                },
            ),
        ) => run_program(
            rt,
            alloc,
            manifest,
            steps,
            args.as_slice(),
            shelf,
            input,
            out,
        ),
        Ok(None) => refuse(
            alloc,
            out,
            &Refusal {
                code: Code::Usage,
                detail: Detail::Nothing,
            },
        ),
        Err(OutOfMemory) => refuse(alloc, out, &out_of_memory()),
    }
}

// Winnows, and prints the answer's line.
fn run_winnow<R: Threads + Sync, S: Shelf, O: Sink, G: Gate>(
    rt: &R,
    alloc: Global,
    manifest: &str,
    outdir: &str,
    shelf: &mut S,
    out: &mut O,
    gate: &G,
) -> Code
    ensures not_usage { result ≢ Code.Usage }
    ensures statuses { CanWinnow result }
    ensures outcome { is_free result ≡ false → IfSome (S.files shelf.old) (λ files.
        WinnowEnds files (S.files shelf.new) manifest.now outdir.now (O.taken out.old) (O.taken out.new) (O.faults out.old) (O.faults out.new) result) }
    ensures read_fault { result ≡ Code.ReadFault → Rose (S.read_faults shelf.old) (S.read_faults shelf.new) }
    ensures write_fault { result ≡ Code.WriteFault → Rose (S.put_faults shelf.old) (S.put_faults shelf.new) }
    ensures print_fault { result ≡ Code.PrintFault → Rose (O.faults out.old) (O.faults out.new) }
    ensures unchanged { result ≢ Code.Done → result ≢ Code.WriteFault → result ≢ Code.PrintFault → result ≢ Code.OutOfMemory
        → S.files shelf.new ≡ S.files shelf.old }
    ensures refusal { result ≢ Code.Done → result ≢ Code.PrintFault → result ≢ Code.OutOfMemory → (Rose (O.faults out.old) (O.faults out.new) → ⊥)
        → TakesRefusal (O.taken out.old) (O.taken out.new) result }
{
    let job = match job_of(alloc, manifest, outdir) {
        Ok(job) => job,
        Err(OutOfMemory) => return refuse(alloc, out, &out_of_memory()),
    };
    match winnow(rt, alloc, &job, shelf, gate) {
        Ok(report) => report_done(alloc, out, &report),
        Err(refusal) => refuse(alloc, out, &refusal),
    }
}

// Checks, and prints the answer's line.
fn run_check<R: Threads + Sync, S: Shelf, O: Sink>(
    rt: &R,
    alloc: Global,
    manifest: &str,
    shelf: &mut S,
    out: &mut O,
) -> Code
    ensures not_usage { result ≢ Code.Usage }
    ensures statuses { CanCheck result }
    ensures outcome { is_free result ≡ false → IfSome (S.files shelf.old) (λ files.
        CheckEnds files (S.files shelf.new) manifest.now (O.taken out.old) (O.taken out.new) (O.faults out.old) (O.faults out.new) result) }
    ensures read_fault { result ≡ Code.ReadFault → Rose (S.read_faults shelf.old) (S.read_faults shelf.new) }
    ensures unread { result ≡ Code.ReadFault → (Rose (O.faults out.old) (O.faults out.new) → ⊥) → IfSome (S.files shelf.old) (λ files.
        NamesFile files manifest.now (O.taken out.old) (O.taken out.new)) }
    ensures print_fault { result ≡ Code.PrintFault → Rose (O.faults out.old) (O.faults out.new) }
    ensures files { S.files shelf.new ≡ S.files shelf.old }
    ensures puts { S.put_faults shelf.new ≡ S.put_faults shelf.old }
    ensures refusal { result ≢ Code.Done → result ≢ Code.PrintFault → result ≢ Code.OutOfMemory → (Rose (O.faults out.old) (O.faults out.new) → ⊥)
        → TakesRefusal (O.taken out.old) (O.taken out.new) result }
{
    let name = match Bytes::from_slice(alloc, manifest.as_bytes()) {
        Ok(name) => name,
        Err(OutOfMemory) => return refuse(alloc, out, &out_of_memory()),
    };
    match check(rt, alloc, &name, shelf) {
        Ok(counts) => check_done(alloc, out, &counts),
        Err(refusal) => refuse(alloc, out, &refusal),
    }
}

// The job of `winnow`, on one thread.
fn job_of(alloc: Global, manifest: &str, outdir: &str) -> Result<Job, OutOfMemory>
    ensures { IfOk result (λ job. (job.manifest ≡ manifest.now) × (job.outdir ≡ outdir.now)) }
{
    let manifest = Bytes::from_slice(alloc, manifest.as_bytes())?;
    let outdir = Bytes::from_slice(alloc, outdir.as_bytes())?;
    Ok(Job {
        manifest,
        outdir,
        workers: 1,
    })
}

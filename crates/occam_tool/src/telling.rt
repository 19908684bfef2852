//! Printing the line that tells how a command ended.
ghost use Rattle.std.specs.Prelude.{◌≡◌, ◌≢◌, ◌⊎◌};
ghost use Rattle.occam_base.specs.Counts.{Rose};
ghost use Rattle.program_runner.specs.Running.{Took};
ghost use Rattle.occam_tool.specs.Lines.{report_line as line_of_report, checked_line as line_of_checked, refusal_line as line_of_refusal};
ghost use Rattle.program_runner.specs.Lines.{ended_line as line_of_ended};
ghost use Rattle.occam_tool.specs.Runnings.{TookFront};

use crate::line::{checked_line, refusal_line, report_line};
use crate::print::print_text;
use crate::{Checked, Refusal, Report};
use ir_types::OutOfMemory;
use occam_base::{Code, Fault, Sink};
use program_runner::{Ended, ended_line};
use std::alloc::Global;

/// Prints the line of a refusal, once. Its status stands where that print fails; where it wants memory, the
/// status is `OutOfMemory`.
pub fn refuse<O: Sink>(alloc: Global, out: &mut O, refusal: &Refusal) -> Code
    ensures code { (result ≡ refusal.now.code) ⊎ (result ≡ Code.OutOfMemory) }
    ensures taken { result ≢ Code.OutOfMemory → (Rose (O.faults out.old) (O.faults out.new) → ⊥)
        → Took (O.taken out.old) (O.taken out.new) (line_of_refusal refusal.now) }
{
    let line = match refusal_line(alloc, refusal) {
        Ok(line) => line,
        Err(OutOfMemory) => return refuse_memory(out),
    };
    match print_text(out, line.as_slice()) {
        Ok(()) => refusal.code,
        Err(Fault::Failed) => refusal.code,
        Err(Fault::OutOfMemory) => Code::OutOfMemory,
    }
}

/// The same for a refusal of `run`. Where the sink failed in the run itself, no line is tried.
pub fn refuse_run<O: Sink>(alloc: Global, out: &mut O, refusal: &Refusal) -> Code
    ensures code { (result ≡ refusal.now.code) ⊎ (result ≡ Code.OutOfMemory) }
    ensures taken { refusal.now.code ≢ Code.PrintFault → result ≢ Code.OutOfMemory → (Rose (O.faults out.old) (O.faults out.new) → ⊥)
        → Took (O.taken out.old) (O.taken out.new) (line_of_refusal refusal.now) }
    ensures cut { refusal.now.code ≡ Code.PrintFault → (result ≡ Code.PrintFault) × (out.new ≡ out.old) }
{
    if refusal.code == Code::PrintFault {
        return Code::PrintFault;
    }
    refuse(alloc, out, refusal)
}

/// Prints the line of a report.
pub fn report_done<O: Sink>(alloc: Global, out: &mut O, report: &Report) -> Code
    ensures code { (result ≡ Code.Done) ⊎ ((result ≡ Code.OutOfMemory) ⊎ (result ≡ Code.PrintFault)) }
    ensures taken { result ≡ Code.Done → Took (O.taken out.old) (O.taken out.new) (line_of_report report.now) }
    ensures failed { result ≡ Code.PrintFault → Rose (O.faults out.old) (O.faults out.new) }
{
    match report_line(alloc, report) {
        Ok(line) => print_done(out, line.as_slice()),
        Err(OutOfMemory) => refuse_memory(out),
    }
}

/// Prints the line of the counts of a checked program.
pub fn check_done<O: Sink>(alloc: Global, out: &mut O, counts: &Checked) -> Code
    ensures code { (result ≡ Code.Done) ⊎ ((result ≡ Code.OutOfMemory) ⊎ (result ≡ Code.PrintFault)) }
    ensures taken { result ≡ Code.Done → Took (O.taken out.old) (O.taken out.new) (line_of_checked counts.now) }
    ensures failed { result ≡ Code.PrintFault → Rose (O.faults out.old) (O.faults out.new) }
{
    match checked_line(alloc, counts) {
        Ok(line) => print_done(out, line.as_slice()),
        Err(OutOfMemory) => refuse_memory(out),
    }
}

/// Prints the line that says how a run ended.
pub fn run_done<O: Sink>(alloc: Global, out: &mut O, ended: &Ended) -> Code
    ensures code { (result ≡ Code.Done) ⊎ ((result ≡ Code.OutOfMemory) ⊎ (result ≡ Code.PrintFault)) }
    ensures taken { result ≡ Code.Done → Took (O.taken out.old) (O.taken out.new) (line_of_ended ended.now) }
    ensures failed { result ≡ Code.PrintFault → Rose (O.faults out.old) (O.faults out.new) }
    ensures front { result ≡ Code.PrintFault → TookFront (O.taken out.old) (O.taken out.new) (line_of_ended ended.now) }
{
    match ended_line(alloc, ended) {
        Ok(line) => print_done(out, line.as_slice()),
        Err(OutOfMemory) => refuse_memory(out),
    }
}

// Prints the line of an answer.
fn print_done<O: Sink>(out: &mut O, line: &[u8]) -> Code
    ensures code { (result ≡ Code.Done) ⊎ ((result ≡ Code.OutOfMemory) ⊎ (result ≡ Code.PrintFault)) }
    ensures taken { result ≡ Code.Done → Took (O.taken out.old) (O.taken out.new) line.now }
    ensures failed { result ≡ Code.PrintFault → Rose (O.faults out.old) (O.faults out.new) }
    ensures front { result ≡ Code.PrintFault → TookFront (O.taken out.old) (O.taken out.new) line.now }
{
    match print_text(out, line) {
        Ok(()) => Code::Done,
        Err(Fault::Failed) => Code::PrintFault,
        Err(Fault::OutOfMemory) => refuse_memory(out),
    }
}

// The line of want of memory takes none.
fn refuse_memory<O: Sink>(out: &mut O) -> Code
    ensures { result ≡ Code.OutOfMemory }
{
    let _ = print_text(out, b"refused memory\n");
    Code::OutOfMemory
}

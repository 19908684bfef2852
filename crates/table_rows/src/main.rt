//! Works on shared tables by one thread and by the passes of several workers, and prints a line for each row: what the
//! calls answer, and what the closed table says.
#![tactic(auto)]

mod full;
mod pairs;
mod text;
mod workers;

use ir_types::OutOfMemory;
use std::io;
use std::process::ExitCode;

fn main(rt: HostRuntime) -> ExitCode {
    match run(&rt) {
        Ok(()) => ExitCode::SUCCESS,
        Err(_) => ExitCode::FAILURE,
    }
}

fn run<R: Print + AllocGlobal>(rt: &R) -> io::Result<()> {
    let alloc = rt.alloc();
    print_line(rt, pairs::worked_row(alloc))?;
    print_line(rt, pairs::handed_slot(alloc))?;
    print_line(rt, workers::children(alloc))?;
    print_line(rt, workers::long_rows(alloc))?;
    print_line(rt, full::fills(alloc))
}

fn print_line<R: Print>(rt: &R, line: Result<String, OutOfMemory>) -> io::Result<()> {
    match line {
        Ok(line) => println!(rt; "{line}"),
        Err(OutOfMemory) => println!(rt; "refused memory"),
    }
}

//! Plays lists of events by tables, and prints a line for each list: `name: core`, or the place of the first event that
//! isn't legal.
#![tactic(auto)]

mod graph;
mod illegal;
mod legal;
mod long;
mod text;

use ir_types::OutOfMemory;
use std::io;
use std::process::ExitCode;

fn main(rt: HostRuntime) -> ExitCode {
    match run(&rt) {
        Ok(()) => ExitCode::SUCCESS,
        Err(_) => ExitCode::FAILURE,
    }
}

fn run<R: Print + AllocGlobal>(rt: &R) -> io::Result<()> {
    let alloc = rt.alloc();
    print_all(rt, legal::lines(alloc))?;
    print_all(rt, illegal::lines(alloc))?;
    print_all(rt, long::lines(alloc))
}

fn print_all<R: Print>(rt: &R, lines: Result<Vec<String>, OutOfMemory>) -> io::Result<()> {
    match lines {
        Ok(lines) => {
            for line in lines.as_slice() {
                println!(rt; "{line}")?;
            }
            Ok(())
        }
        Err(OutOfMemory) => println!(rt; "refused memory"),
    }
}

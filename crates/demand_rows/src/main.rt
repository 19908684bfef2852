//! Tries rows, demands, least sets and plans by tables, and prints a line for each row: `name: answer`.
#![tactic(auto)]

mod demanded;
mod graph;
mod least_sets;
mod left;
mod names;
mod order;
mod plans;
mod text;
mod words;

use ir_types::OutOfMemory;
use std::io;
use std::process::ExitCode;

fn main(rt: HostRuntime) -> ExitCode {
    match run(&rt) {
        Ok(()) => ExitCode::SUCCESS,
        Err(_) => ExitCode::FAILURE,
    }
}

fn run<R: Print + AllocGlobal>(rt: &R) -> io::Result<()> {
    let alloc = rt.alloc();
    print_all(rt, words::lines(alloc))?;
    print_all(rt, graph::lines(alloc))?;
    print_all(rt, names::lines(alloc))?;
    print_all(rt, order::lines(alloc))?;
    print_all(rt, demanded::lines(alloc))?;
    print_all(rt, least_sets::lines(alloc))?;
    print_all(rt, plans::lines(alloc))
}

fn print_all<R: Print>(rt: &R, lines: Result<Vec<String>, OutOfMemory>) -> io::Result<()> {
    match lines {
        Ok(lines) => {
            for line in lines.as_slice() {
                println!(rt; "{line}")?;
            }
            Ok(())
        }
        Err(OutOfMemory) => println!(rt; "refused memory"),
    }
}

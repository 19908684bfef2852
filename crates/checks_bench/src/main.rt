//! Runs the two checks of modules over one function of a given shape and size, so that their time and memory can be
//! measured: `checks_bench SHAPE SIZE ..` prints a line for each shape with its size, `SHAPE SIZE typed definite` for the
//! functions that it builds.
#![tactic(auto)]

mod blocks;
mod bodies;
mod checks;
mod refusal;
mod shape;
mod words;

use crate::checks::{Report, checked};
use crate::refusal::Refusal;
use crate::words::{asked, words_of};
use std::alloc::Global;
use std::io;
use std::process::ExitCode;
use std::rt::Env;

fn main(rt: HostRuntime) -> ExitCode {
    match run(&rt) {
        Ok(status) => ExitCode::from(status),
        Err(_) => ExitCode::FAILURE,
    }
}

// A line is printed for each shape and size, and what is returned is the exit status of the last refusal.
fn run<R: Env + Print + AllocGlobal>(rt: &R) -> io::Result<u8> {
    let words = words_of(rt)?;
    if words.is_empty() {
        return print_answer(rt, Err(Refusal::Usage));
    }
    let mut status = 0;
    for pair in words.chunks(2) {
        match print_answer(rt, answer(rt.alloc(), pair))? {
            0 => {}
            refused => status = refused,
        }
    }
    Ok(status)
}

fn answer(alloc: Global, pair: &[String]) -> Result<Report, Refusal> {
    let (shape, size) = asked(pair)?;
    checked(alloc, shape, size)
}

// Prints the line, and gives the status that stands for the answer.
fn print_answer<R: Print>(rt: &R, answer: Result<Report, Refusal>) -> io::Result<u8> {
    match answer {
        Ok(report) => {
            println!(rt; "{report}")?;
            Ok(0)
        }
        Err(refusal) => {
            println!(rt; "refused {refusal}")?;
            Ok(refusal.status())
        }
    }
}

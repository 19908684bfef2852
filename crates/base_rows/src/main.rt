//! Asks the questions of the base crates on tables of types, numbers, names and instructions, and prints each answer
//! behind its name.
#![tactic(auto)]

mod copies;
mod failed;
mod fixtures;
mod instructions;
mod items;
mod layouts;
mod library;
mod names;
mod scalars;
mod swapped;
mod walks;

use crate::failed::Failed;
use std::fmt::Debug;
use std::process::ExitCode;

fn main(rt: HostRuntime) -> ExitCode {
    match run(&rt) {
        Ok(()) => ExitCode::SUCCESS,
        Err(_) => ExitCode::FAILURE,
    }
}

fn run<R: Print + AllocGlobal>(rt: &R) -> Result<(), Failed> {
    layouts::print_rows(rt)?;
    walks::print_rows(rt)?;
    scalars::print_rows(rt)?;
    names::print_rows(rt)?;
    copies::print_rows(rt)?;
    instructions::print_rows(rt)?;
    items::print_rows(rt)?;
    library::print_rows(rt)
}

/// Prints one answer.
fn print_row<R: Print, A: Debug>(rt: &R, name: &str, answer: &A) -> Result<(), Failed> {
    println!(rt; "{name}: {answer:?}")?;
    Ok(())
}

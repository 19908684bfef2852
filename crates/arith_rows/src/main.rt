//! Reads a table of operations on integers, a line each, and prints behind each line what `int_ops` answers:
//! `arith_rows FILE`. A row is `OPERATION FLAGS TYPE A B`, `icmp PREDICATE TYPE A B` or `CAST FLAGS FROM TO A`;
//! `bench/arithmetic.py` writes the table and what must be printed.
#![tactic(auto)]

mod answers;
mod words;

use crate::answers::{Answer, answered, row_of};
use int_ops::Outcome;
use std::process::ExitCode;
use std::rt::{Env, Files};
use std::{env, fs, io};

fn main(rt: HostRuntime) -> ExitCode {
    match run(&rt) {
        Ok(()) => ExitCode::SUCCESS,
        Err(_) => ExitCode::FAILURE,
    }
}

fn run<R: Env + Files + Print + AllocGlobal>(rt: &R) -> anyhow::Result<()> {
    for word in env::args(rt)?.skip(1) {
        let table = fs::read_to_string(rt, word.as_str())?;
        for line in table.lines() {
            print_row(rt, line)?;
        }
    }
    Ok(())
}

fn print_row<R: Print>(rt: &R, line: &str) -> io::Result<()> {
    match row_of(line) {
        Some(row) => match answered(row) {
            Answer::Holds(holds) => println!(rt; "{line}: {holds}"),
            Answer::Gives(Outcome::Num(number)) => println!(rt; "{line}: {number}"),
            Answer::Gives(Outcome::Poison) => println!(rt; "{line}: poison"),
            Answer::Gives(Outcome::Undefined(cause)) => println!(rt; "{line}: undefined {cause:?}"),
        },
        None => println!(rt; "{line}: no row"),
    }
}

//! Runs the top call over a table of cases, and prints for each its status, what the sink took and the files that are new:
//! `tool_rows FILE`. `case.rt` says how a case is written.
#![tactic(auto)]

mod case;
mod play;

use crate::case::cases_of;
use crate::play::print_case;
use std::process::ExitCode;
use std::rt::{Env, Files};
use std::thread::Threads;
use std::{env, fs};

fn main(rt: HostRuntime) -> ExitCode {
    match run(&rt) {
        Ok(()) => ExitCode::SUCCESS,
        Err(_) => ExitCode::FAILURE,
    }
}

fn run<R: Env + Files + Print + AllocGlobal + Threads + Sync>(rt: &R) -> anyhow::Result<()> {
    for word in env::args(rt)?.skip(1) {
        let table = fs::read_to_string(rt, word.as_str())?;
        let cases = cases_of(rt.alloc(), table.as_str())?;
        for case in cases {
            print_case(rt, case)?;
        }
    }
    Ok(())
}

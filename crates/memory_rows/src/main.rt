//! Runs scripts of calls of a memory: `memory_rows [--linked] FILE`. A script stands behind a line `; == NAME` and has a call a
//! line; behind them the texts of modules, each behind a line `; --`, whose variables the memory starts with. Printed is for
//! each script the answers of its calls. Behind `--linked` programs are linked, and nothing is run.
//!
//! A value is a number, `null`, `poison`, or an address: `b0` is the first block that was made, `@x` that of the first item
//! of this name, each with `+` or `-` and an offset behind it. The calls, where brackets enclose what may be left out:
//!
//!     make SIZE [heap] [zeroed]           end BLOCK                  free VALUE
//!     load TYPE VALUE [ALIGNMENT]         store TYPE VALUE VALUE [ALIGNMENT]
//!     fill VALUE BYTE LENGTH              copy VALUE VALUE LENGTH    move VALUE VALUE LENGTH
//!     compare PREDICATE VALUE VALUE       write BLOCK OFFSET BYTE    repeat COUNT SIZE
//!     extent BLOCK                        show VALUE                 writable BLOCK
//!
//! An alignment that is left out is the size of the type. `copy` refuses ranges that overlap. `write` writes a byte as a
//! reply of a call outside does. `repeat` makes a block and ends it, so many times. `show` prints each byte of a block: two
//! digits, `--` of poison, and `VALUE.K` of the byte K of an address.
#![tactic(auto)]

mod accesses;
mod answer;
mod answers;
mod blocks;
mod calls;
mod known;
mod names;
mod script;
mod session;
mod shown;
mod start;
mod wholes;
mod words;

use crate::script::answers_to;
use crate::start::{Start, started};
use std::alloc::Global;
use std::process::ExitCode;
use std::rt::{Env, Files};
use std::{env, fs};

/// What stands before the name of a script.
const BEHIND: &str = "; == ";

/// What stands before the text of a module.
const BETWEEN: &str = "; --\n";

fn main(rt: HostRuntime) -> ExitCode {
    match run(&rt) {
        Ok(()) => ExitCode::SUCCESS,
        Err(_) => ExitCode::FAILURE,
    }
}

fn run<R: Env + Files + Print + AllocGlobal>(rt: &R) -> anyhow::Result<()> {
    let mut runs = true;
    for word in env::args(rt)?.skip(1) {
        match word.as_str() {
            "--linked" => runs = false,
            file => print_scripts(rt, runs, file)?,
        }
    }
    Ok(())
}

fn print_scripts<R: Files + Print + AllocGlobal>(
    rt: &R,
    runs: bool,
    file: &str,
) -> anyhow::Result<()> {
    let table = fs::read_to_string(rt, file)?;
    for piece in table.split(BEHIND).skip(1) {
        let (name, script) = piece.split_once('\n').unwrap_or((piece, ""));
        let answers = answers_of(rt.alloc(), runs, script)?;
        println!(rt; "{name}: {answers}")?;
    }
    Ok(())
}

/// The answers of a script's calls.
fn answers_of(alloc: Global, runs: bool, script: &str) -> anyhow::Result<String> {
    let (calls, modules) = script.split_once(BETWEEN).unwrap_or((script, ""));
    match started(alloc, runs, modules)? {
        Start::Session(mut session) => answers_to(alloc, &mut session, calls),
        Start::Linked => Ok(String::from_str(alloc, "linked")?),
        Start::Refused(why) => Ok(why),
    }
}

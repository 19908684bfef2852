//! Reads rows from a file and links each: `link_rows FILE [--cycles FILE]`. A row stands behind a line `; == NAME`: a
//! manifest, and the texts of its modules, each behind a line `; --`. Printed is what each item stands for with its canonical
//! symbol, or what linking refuses; of rows behind `--cycles` which functions are on call cycles.
#![tactic(auto)]

mod cycles;
mod shown;

use crate::cycles::cycles_text;
use crate::shown::{fault_text, program_text};
use program_rows::{Linked, link_row};
use std::alloc::Global;
use std::process::ExitCode;
use std::rt::{Env, Files};
use std::{env, fs};

/// What stands before the name of a row.
const BEHIND: &str = "; == ";

fn main(rt: HostRuntime) -> ExitCode {
    match run(&rt) {
        Ok(()) => ExitCode::SUCCESS,
        Err(_) => ExitCode::FAILURE,
    }
}

fn run<R: Env + Files + Print + AllocGlobal>(rt: &R) -> anyhow::Result<()> {
    let mut asked = Asked::Items;
    for word in env::args(rt)?.skip(1) {
        match word.as_str() {
            "--cycles" => asked = Asked::Cycles,
            file => print_rows(rt, asked, file)?,
        }
    }
    Ok(())
}

/// What is asked of linked programs.
#[derive(Clone, Copy, Debug)]
enum Asked {
    Items,
    Cycles,
}

fn print_rows<R: Files + Print + AllocGlobal>(
    rt: &R,
    asked: Asked,
    file: &str,
) -> anyhow::Result<()> {
    let table = fs::read_to_string(rt, file)?;
    for piece in table.split(BEHIND).skip(1) {
        let (name, row) = piece.split_once('\n').unwrap_or((piece, ""));
        let answer = answer_of(rt.alloc(), asked, row)?;
        println!(rt; "{name}: {answer}")?;
    }
    Ok(())
}

// What is said of one row.
fn answer_of(alloc: Global, asked: Asked, row: &str) -> anyhow::Result<String> {
    match link_row(alloc, row)? {
        Linked::Program(program) => match asked {
            Asked::Items => program_text(alloc, &program),
            Asked::Cycles => cycles_text(alloc, &program),
        },
        Linked::Refused(fault) => fault_text(alloc, &fault),
        Linked::NotSound => Ok(String::from_str(alloc, "not sound")?),
        Linked::NoManifest(why) => Ok(why),
    }
}

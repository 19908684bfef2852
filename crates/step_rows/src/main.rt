//! Runs the programs of rows of a file: `step_rows FILE`. A row stands behind a line `; == NAME`: a manifest, lines that say
//! what is called and what calls outside are replied, and the texts of the modules, each behind a line `; --`. The lines are
//! `; call NAME NUMBER ..`, a root with its arguments, `; reply REPLY` (`replies` has the forms), and `; limit N`, after how
//! many steps each root is left; where none is called the entry is, without arguments. The roots run one after another over
//! one memory. Printed is what each call outside was shown, and what came of each root, with the number of its steps.
#![tactic(auto)]

mod arguments;
mod calls;
mod ends;
mod plays;
mod replies;
mod script;
mod values;

use crate::plays::played;
use crate::script::read_script;
use program_rows::{Linked, link_row};
use std::alloc::Global;
use std::process::ExitCode;
use std::rt::{Env, Files};
use std::{env, fs};

/// What stands before the name of a row.
const BEHIND: &str = "; == ";

fn main(rt: HostRuntime) -> ExitCode {
    match run(&rt) {
        Ok(()) => ExitCode::SUCCESS,
        Err(_) => ExitCode::FAILURE,
    }
}

fn run<R: Env + Files + Print + AllocGlobal>(rt: &R) -> anyhow::Result<()> {
    for word in env::args(rt)?.skip(1) {
        let table = fs::read_to_string(rt, word.as_str())?;
        for piece in table.split(BEHIND).skip(1) {
            let (name, row) = piece.split_once('\n').unwrap_or((piece, ""));
            let answer = answer_of(rt.alloc(), row)?;
            println!(rt; "{name}: {answer}")?;
        }
    }
    Ok(())
}

// What comes of one row.
fn answer_of(alloc: Global, row: &str) -> anyhow::Result<String> {
    let Some(script) = read_script(alloc, row)? else {
        return Ok(String::from_str(alloc, "no script")?);
    };
    match link_row(alloc, row)? {
        Linked::Program(program) => played(alloc, &program, &script),
        Linked::Refused(_) => Ok(String::from_str(alloc, "refused")?),
        Linked::NotSound => Ok(String::from_str(alloc, "not sound")?),
        Linked::NoManifest(why) => Ok(why),
    }
}

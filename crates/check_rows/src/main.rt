//! Reads the texts of modules from a file, each behind a line `; == NAME`, and prints for each whether it is well typed and
//! definite, or what the reader or a check refuses: `check_rows FILE`.
#![tactic(auto)]

use ir_check::{TypeFault, check_types};
use ir_parser::{ReadFault, read_module, what_is_spelled_is_formed};
use ir_paths::{PathFault, check_paths};
use std::alloc::Global;
use std::process::ExitCode;
use std::rt::{Env, Files};
use std::{env, fs};

/// What stands before the name of a text.
const BEHIND: &str = "; == ";

fn main(rt: HostRuntime) -> ExitCode {
    match run(&rt) {
        Ok(()) => ExitCode::SUCCESS,
        Err(_) => ExitCode::FAILURE,
    }
}

fn run<R: Env + Files + Print + AllocGlobal>(rt: &R) -> anyhow::Result<()> {
    for word in env::args(rt)?.skip(1) {
        let table = fs::read_to_string(rt, word.as_str())?;
        for piece in table.split(BEHIND).skip(1) {
            let (name, text) = piece.split_once('\n').unwrap_or((piece, ""));
            let answer = answer_of(rt.alloc(), text.as_bytes())?;
            println!(rt; "{name}: {answer}")?;
        }
    }
    Ok(())
}

// What is said of one text.
fn answer_of(alloc: Global, text: &[u8]) -> anyhow::Result<String> {
    what_is_spelled_is_formed();
    let module = match read_module(alloc, text) {
        Ok(module) => module,
        Err(ReadFault::BadByte { at }) => return Ok(format!(in alloc; "bad-byte {at}")?),
        Err(ReadFault::NotInSubset { entity }) => {
            return Ok(format!(in alloc; "not-in-subset {entity}")?);
        }
        Err(ReadFault::OutOfMemory) => return Ok(String::from_str(alloc, "memory")?),
    };
    match check_types(alloc, &module) {
        Ok(()) => {}
        Err(TypeFault::IllTyped { item }) => return Ok(format!(in alloc; "ill-typed {item}")?),
        Err(TypeFault::OutOfMemory) => return Ok(String::from_str(alloc, "memory")?),
    }
    match check_paths(alloc, &module) {
        Ok(()) => Ok(String::from_str(alloc, "typed definite")?),
        Err(PathFault::NotDefinite { item }) => {
            Ok(format!(in alloc; "typed not-definite {item}")?)
        }
        Err(PathFault::OutOfMemory) => Ok(String::from_str(alloc, "memory")?),
    }
}

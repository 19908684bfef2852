//! Reads rows from a file, links each, and prints what is left of a function once something is known of its parameters:
//! `expand_rows FILE [--given FILE] [--roots FILE] [--needed FILE] [--counted FILE]`. A row stands behind a line
//! `; == NAME of ITEM with KNOWN ..`: a manifest, and the texts of its modules, each behind a line `; --`. `KNOWN` is a number,
//! `null` or `_`, one for each parameter. An answer has the size, the rows that are needed, and a line for each block that is
//! left. Of rows behind `--given` it has the same by the assignment that is given no edge and no fact, in which each result
//! varies; of rows behind `--roots` what the deployment asks for at first; of rows behind `--needed` all that it needs, each
//! demand with its answer; and of rows behind `--counted` how many demands that are and what their sizes add to.
//!
//! In a block `%0` is a result, `#0` a parameter, `@f` an item, and a number or `null` itself. A phi's entry is its operand and
//! the block that it is for. In a need `_` stands for what isn't known.
#![tactic(auto)]

mod bodies;
mod found;
mod given;
mod needed;
mod rooted;
mod shown;
mod wanted;

use crate::given::given_text;
use crate::needed::{counted_text, needed_text};
use crate::rooted::roots_text;
use crate::wanted::expanded_text;
use program_rows::{Linked, link_row};
use std::alloc::Global;
use std::process::ExitCode;
use std::rt::{Env, Files};
use std::{env, fs};

/// What stands before the name of a row.
const BEHIND: &str = "; == ";

fn main(rt: HostRuntime) -> ExitCode {
    match run(&rt) {
        Ok(()) => ExitCode::SUCCESS,
        Err(_) => ExitCode::FAILURE,
    }
}

fn run<R: Env + Files + Print + AllocGlobal>(rt: &R) -> anyhow::Result<()> {
    let mut asked = Asked::Bodies;
    for word in env::args(rt)?.skip(1) {
        match word.as_str() {
            "--given" => asked = Asked::Given,
            "--roots" => asked = Asked::Roots,
            "--needed" => asked = Asked::Needed,
            "--counted" => asked = Asked::Counted,
            file => print_rows(rt, asked, file)?,
        }
    }
    Ok(())
}

/// What is asked of linked programs.
#[derive(Clone, Copy, Debug)]
enum Asked {
    Bodies,
    Given,
    Roots,
    Needed,
    Counted,
}

fn print_rows<R: Files + Print + AllocGlobal>(
    rt: &R,
    asked: Asked,
    file: &str,
) -> anyhow::Result<()> {
    let table = fs::read_to_string(rt, file)?;
    for piece in table.split(BEHIND).skip(1) {
        let (name, row) = piece.split_once('\n').unwrap_or((piece, ""));
        let answer = answer_of(rt.alloc(), asked, name, row)?;
        println!(rt; "{name}: {answer}")?;
    }
    Ok(())
}

// What is said of one row.
fn answer_of(alloc: Global, asked: Asked, name: &str, row: &str) -> anyhow::Result<String> {
    match link_row(alloc, row)? {
        Linked::Program(program) => match asked {
            Asked::Bodies => expanded_text(alloc, &program, name),
            Asked::Given => given_text(alloc, &program, name),
            Asked::Roots => roots_text(alloc, &program),
            Asked::Needed => needed_text(alloc, &program),
            Asked::Counted => counted_text(alloc, &program),
        },
        Linked::Refused(_) => Ok(String::from_str(alloc, "refused")?),
        Linked::NotSound => Ok(String::from_str(alloc, "not sound")?),
        Linked::NoManifest(why) => Ok(why),
    }
}

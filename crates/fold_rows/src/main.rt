//! Reads the texts of modules from a file, each behind a line `; == NAME with KNOWN ..`, and prints for each what folding
//! knows of its first function that has a body: `fold_rows FILE`. `KNOWN` is a number, `null` or `_`, one for each parameter;
//! those that are missing or don't suit are `_`. An answer has the facts of the results (`-` of one that nothing reaches, `*`
//! of one that varies), the reached edges as BLOCK.PLACE, and what the terminator of the first block asks for with the steps
//! that were counted. A second line has the assignment that is given no edge and no fact, in which each result varies; a third
//! whether the solver by a worklist gives the same as the one by rounds, and how many transfers it may make.
#![tactic(auto)]

mod known;
mod said;
mod shown;
mod sparse;

ghost use Rattle.std.specs.Prelude.{IfSome};
ghost use Rattle.ir_syntax.specs.Formed.{Formed};
ghost use Rattle.ir_syntax.specs.Typed.{Typed};
ghost use Rattle.ir_syntax.specs.Definite.{Definite};
ghost use Rattle.ir_syntax.specs.SoundFunctions.{IsSoundFunction};
ghost use Rattle.fold_facts.specs.OfFunction.{AreKnownOf};

use crate::known::known_of;
use crate::said::first_said;
use crate::shown::shown;
use crate::sparse::{most_transfers, solved};
use fold_facts::{Assignment, solve_plain};
use ir_check::check_types;
use ir_parser::{read_module, what_is_spelled_is_formed};
use ir_paths::check_paths;
use ir_syntax::{Func, Item, Module, functions_are_sound};
use ir_types::Known;
use std::alloc::Global;
use std::marker::Brand;
use std::process::ExitCode;
use std::rt::{Env, Files};
use std::sync::ledger::Blank;
use std::{env, fs};

/// What stands before the name of a text.
const BEHIND: &str = "; == ";

fn main(rt: HostRuntime) -> ExitCode {
    match run(&rt) {
        Ok(()) => ExitCode::SUCCESS,
        Err(_) => ExitCode::FAILURE,
    }
}

fn run<R: Env + Files + Print + AllocGlobal>(rt: &R) -> anyhow::Result<()> {
    for word in env::args(rt)?.skip(1) {
        let table = fs::read_to_string(rt, word.as_str())?;
        for piece in table.split(BEHIND).skip(1) {
            let (name, text) = piece.split_once('\n').unwrap_or((piece, ""));
            let answer = answer_of(rt.alloc(), name, text.as_bytes())?;
            println!(rt; "{name}: {answer}")?;
        }
    }
    Ok(())
}

// What folding knows of the first function of a text.
fn answer_of(alloc: Global, name: &str, text: &[u8]) -> anyhow::Result<String> {
    what_is_spelled_is_formed();
    let Ok(module) = read_module(alloc, text) else {
        return Ok(String::from_str(alloc, "not read")?);
    };
    if check_types(alloc, &module).is_err() {
        return Ok(String::from_str(alloc, "not typed")?);
    }
    if check_paths(alloc, &module).is_err() {
        return Ok(String::from_str(alloc, "not definite")?);
    }
    match first_defined(&module) {
        Some(func) => folded(alloc, name, func),
        None => Ok(String::from_str(alloc, "no function")?),
    }
}

// The first function that has a body.
fn first_defined(m: &Module) -> Option<&Func>
    requires formed { Formed m.now }
    requires typed { Typed m.now }
    requires definite { Definite m.now }
    ensures { IfSome result (λ func. IsSoundFunction func.now) }
{
    functions_are_sound();
    for item in m.items.as_slice() {
        match item {
            Item::Var(_) => {}
            Item::Func(func) => {
                if func.body.is_some() {
                    return Some(func);
                }
            }
        }
    }
    None
}

fn folded(alloc: Global, name: &str, func: &Func) -> anyhow::Result<String>
    requires { IsSoundFunction func.now }
{
    let known = known_of(alloc, name, func.params.as_slice())?;
    let least = solve_plain(alloc, func, known.as_slice())?;
    let folded = shown(alloc, func, known.as_slice(), &least)?;
    let blank = Assignment::of(alloc, func, &[], &[])?;
    let given = shown(alloc, func, known.as_slice(), &blank)?;
    let said = said_of(alloc, func, known.as_slice(), &least)?;
    let sparse = compared(alloc, func, known.as_slice(), folded.as_str())?;
    Ok(format!(in alloc;
        "{folded}{said}\n  with nothing given: {given}\n  by a worklist: {sparse}"
    )?)
}

// Whether the solver by a worklist gives what the one by rounds gave, within its bound.
fn compared(alloc: Global, func: &Func, known: &[Known], folded: &str) -> anyhow::Result<String>
    requires known { AreKnownOf func.now known.now }
    requires sound { IsSoundFunction func.now }
{
    let (a, transfers) = solved::<Brand>(alloc, func, known, Blank::new(1))?;
    let text = shown(alloc, func, known, &a)?;
    let most = match &func.body {
        Some(body) => most_transfers(body),
        None => 0,
    };
    let same = if text.as_str() == folded {
        "the same"
    } else {
        text.as_str()
    };
    let within = if transfers <= most { "within" } else { "past" };
    Ok(format!(in alloc; "{same}, {within} {most} transfers")?)
}

// What the terminator of the first block asks for.
fn said_of(alloc: Global, func: &Func, known: &[Known], a: &Assignment) -> anyhow::Result<String> {
    match &func.body {
        Some(body) => match body.blocks.get(0) {
            Some(_) => {
                let (said, steps) = first_said::<Brand>(func, known, a, Blank::new(1));
                Ok(format!(in alloc; ", {said:?} in {steps} step")?)
            }
            None => Ok(String::new(alloc)),
        },
        None => Ok(String::new(alloc)),
    }
}

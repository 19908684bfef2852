//! Reads a module's text and folds its first function that has a body, so that time and memory can be measured:
//! `fold_bench HOW FILE`, where `HOW` is `read`, which only reads and checks, `rounds`, which solves by rounds, or `worklist`.
//! It prints a line, by a worklist with how many transfers were made. The function is to have no parameters.
#![tactic(auto)]

mod folded;

ghost use Rattle.std.specs.Prelude.{IfSome};
ghost use Rattle.ir_syntax.specs.Formed.{Formed};
ghost use Rattle.ir_syntax.specs.Typed.{Typed};
ghost use Rattle.ir_syntax.specs.Definite.{Definite};
ghost use Rattle.ir_syntax.specs.SoundFunctions.{IsSoundFunction};

use crate::folded::folded;
use ir_check::check_types;
use ir_parser::{read_module, what_is_spelled_is_formed};
use ir_paths::check_paths;
use ir_syntax::{Func, Item, Module, functions_are_sound};
use std::alloc::Global;
use std::process::ExitCode;
use std::rt::{Env, Files};
use std::{env, fs};

fn main(rt: HostRuntime) -> ExitCode {
    match run(&rt) {
        Ok(()) => ExitCode::SUCCESS,
        Err(_) => ExitCode::FAILURE,
    }
}

fn run<R: Env + Files + Print + AllocGlobal>(rt: &R) -> anyhow::Result<()> {
    let mut how = String::new(rt.alloc());
    for (place, word) in env::args(rt)?.enumerate() {
        match place {
            0 => {}
            1 => how = word,
            _ => {
                let text = fs::read_to_string(rt, word.as_str())?;
                let answer = answer_of(rt.alloc(), how.as_str(), text.as_bytes())?;
                println!(rt; "{answer}")?;
            }
        }
    }
    Ok(())
}

// What folding knows of the first function of a text.
fn answer_of(alloc: Global, how: &str, text: &[u8]) -> anyhow::Result<String> {
    what_is_spelled_is_formed();
    let Ok(module) = read_module(alloc, text) else {
        return Ok(String::from_str(alloc, "not read")?);
    };
    if check_types(alloc, &module).is_err() {
        return Ok(String::from_str(alloc, "not typed")?);
    }
    if check_paths(alloc, &module).is_err() {
        return Ok(String::from_str(alloc, "not definite")?);
    }
    match first_defined(&module) {
        Some(func) => folded(alloc, how, func),
        None => Ok(String::from_str(alloc, "no function")?),
    }
}

// The first function that has a body.
fn first_defined(m: &Module) -> Option<&Func>
    requires formed { Formed m.now }
    requires typed { Typed m.now }
    requires definite { Definite m.now }
    ensures { IfSome result (λ func. IsSoundFunction func.now) }
{
    functions_are_sound();
    for item in m.items.as_slice() {
        match item {
            Item::Var(_) => {}
            Item::Func(func) => {
                if func.body.is_some() {
                    return Some(func);
                }
            }
        }
    }
    None
}

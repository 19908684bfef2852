//! From the files of modules to the modules.
ghost use Rattle.std.specs.Prelude.{◌≡◌, ◌≤◌, [], All, length, Ok, IsUtf8, IfOk, IfErr};
ghost use Rattle.ir_syntax.specs.Programs.{AreSoundModules};
ghost use Rattle.program_loader.specs.Refusing.{code_of, ReadsAlone, CanRefuse};
ghost use Rattle.program_loader.specs.Steps.{GoesOn, NextOf, ModulesOf};

use crate::Refusal;
use crate::judging::{Judged, judge};
use crate::texts::read_text;
use ir_parser::{items_are_within_the_text, what_is_spelled_is_formed};
use ir_syntax::Module;
use ir_types::{Bytes, OutOfMemory};
use occam_base::Shelf;
use sqlite_items::Items as List;
use std::alloc::Global;

const MODULE_LIMIT: usize = 16_777_216;

const MODULES_LIMIT: usize = 33_554_432;

/// How far the files of modules are read: so many bytes, and the modules of their texts, or the refusal of the first that
/// isn't sound.
#[derive(Debug, Drop)]
pub struct Walk {
    bytes: usize,
    found: Result<List<Module>, Refusal>,
}

/// Reads the modules of these files, in their order. Every file is read before a module is refused, and each text is dropped
/// before the next file is read.
pub fn read_modules<S: Shelf>(
    alloc: Global,
    shelf: &mut S,
    names: &[Bytes],
) -> Result<List<Module>, Refusal>
    requires names { All IsUtf8 names.now }
    requires few { length names.now ≤ 256 }
    ensures gives { ModulesOf (S.files shelf.old) names.now result }
    ensures codes { IfErr result (λ r. CanRefuse r.code) }
    ensures alone { ReadsAlone (code_of result) (S.files shelf.old) (S.files shelf.new) (S.read_faults shelf.old) (S.read_faults shelf.new) (S.put_faults shelf.old) (S.put_faults shelf.new) }
    ensures sound { IfOk result AreSoundModules }
    ensures each { IfOk result (λ modules. length modules ≡ length names.now) }
    ensures small { IfOk result (λ modules. All (λ m. length m.items ≤ 16777216) modules) }
{
    items_are_within_the_text();
    what_is_spelled_is_formed();
    let mut walk = Walk {
        bytes: 0,
        found: Ok(List::new(alloc)),
    };
    for name in names {
        walk = match read_next(alloc, shelf, walk, name.as_slice()) {
            Ok(next) => next,
            Err(refusal) => return Err(refusal),
        };
    }
    walk.found
}

// Reads one more file, with what room is left.
fn read_next<S: Shelf>(
    alloc: Global,
    shelf: &mut S,
    walk: Walk,
    name: &[u8],
) -> Result<Walk, Refusal>
    requires utf8 { IsUtf8 name.now }
    requires room { walk.bytes ≤ 33554432 }
    ensures gives { NextOf (S.files shelf.old) name.now walk result }
    ensures codes { IfErr result (λ r. CanRefuse r.code) }
    ensures alone { ReadsAlone (code_of result) (S.files shelf.old) (S.files shelf.new) (S.read_faults shelf.old) (S.read_faults shelf.new) (S.put_faults shelf.old) (S.put_faults shelf.new) }
{
    let Walk { bytes, found } = walk;
    let limit = MODULE_LIMIT.min(MODULES_LIMIT - bytes);
    let text = match read_text(alloc, shelf, name, limit) {
        Ok(text) => text,
        Err(refusal) => return Err(refusal),
    };
    let found = go_on(alloc, found, name, text.as_slice())?;
    Ok(Walk {
        bytes: bytes + text.len(),
        found,
    })
}

// What is found with one more text. Once a module is refused the texts behind it aren't looked at.
fn go_on(
    alloc: Global,
    found: Result<List<Module>, Refusal>,
    name: &[u8],
    text: &[u8],
) -> Result<Result<List<Module>, Refusal>, OutOfMemory>
    ensures { IfOk result (GoesOn name.now text.now found) }
{
    match found {
        Ok(modules) => add_module(alloc, modules, name, text),
        Err(refusal) => Ok(Err(refusal)),
    }
}

// Adds the module of a text, or drops them all where it is refused.
fn add_module(
    alloc: Global,
    mut modules: List<Module>,
    name: &[u8],
    text: &[u8],
) -> Result<Result<List<Module>, Refusal>, OutOfMemory>
    ensures { IfOk result (GoesOn name.now text.now (Ok modules)) }
{
    let judged = judge(alloc, name, text)?;
    match judged {
        Judged::Sound(module) => {
            modules.push(module)?;
            Ok(Ok(modules))
        }
        Judged::Refused(refusal) => Ok(Err(refusal)),
    }
}

//! Reads the text of a module of straight-line functions.
#![tactic(auto)]

mod form;
mod laws;
mod lexemes;
mod names;
mod numbers;
mod parse;
mod pieces;
mod resolve;

ghost use Rattle.std.specs.Prelude.{◌≡◌, ◌≤◌, length, option_and_then, IfOk, IfSome, IfNone};
ghost use Rattle.std.specs.List.{All};
ghost use Rattle.ir_lexer.specs.Tokens.{IsTokenIn};
ghost use Rattle.ir_syntax.specs.declared.item.Module.{Module as ModuleValue};
ghost use Rattle.straight_form.specs.Spelled.{pieces_of};
ghost use Rattle.straight_form.specs.Form.{IsStraightForm};
ghost use Rattle.straight_form.specs.Counts.{instruction_count};
ghost use Rattle.straight_reader.specs.Readings.{entities_from};
ghost use Rattle.straight_reader.specs.Forms.{formed};

use crate::form::{are_straight, has_entry, names};
pub use crate::laws::the_form_is_straight;
use crate::lexemes::lexemes;
use crate::parse::entities;
use crate::resolve::items;
use ir_lexer::{LexFault, Token, lex};
use ir_syntax::Module;
use ir_types::OutOfMemory;
use std::alloc::Global;
use straight_form::Entity;

/// The most bytes of a text.
const LONGEST_TEXT: usize = 16777216;

/// The module of the definitions, where they are of the form for this entry of so many parameters.
fn module_of(
    alloc: Global,
    entities: &[Entity],
    entry: &[u8],
    count: usize,
) -> Result<Option<Module>, OutOfMemory>
    ensures { IfOk result (λ found. found ≡ formed entry.now count entities.now) }
{
    let functions = match names(alloc, entities)? {
        Some(functions) => functions,
        None => return Ok(None),
    };
    if !are_straight(entities, &functions) {
        return Ok(None);
    }
    if !has_entry(entry, count, entities) {
        return Ok(None);
    }
    match items(alloc, entities, &functions)? {
        Some(items) => Ok(Some(Module {
            layout: None,
            triple: None,
            items,
        })),
        None => Ok(None),
    }
}

/// The module that the tokens of a text spell.
fn read_tokens(
    alloc: Global,
    text: &[u8],
    tokens: &[Token],
    entry: &[u8],
    count: usize,
) -> Result<Option<Module>, OutOfMemory>
    requires { All (IsTokenIn text.now) tokens.now }
    ensures { IfOk result (λ found. found ≡ option_and_then (formed entry.now count) (entities_from 0 (pieces_of text.now tokens.now))) }
{
    let lexemes = lexemes(alloc, text, tokens)?;
    match entities(alloc, lexemes.as_slice())? {
        Some(entities) => module_of(alloc, entities.as_slice(), entry, count),
        None => Ok(None),
    }
}

/// The module that the text spells, where the text is of the form for this entry of so many parameters, and `None`
/// where it isn't. The error is want of memory.
pub fn read(
    alloc: Global,
    text: &[u8],
    entry: &[u8],
    count: usize,
) -> Result<Option<Module>, OutOfMemory>
    ensures found { IfOk result (λ answer. IfSome answer (λ m. IsStraightForm text.now entry.now count m)) }
    ensures none { IfOk result (λ answer. IfNone answer ((m : ModuleValue) → IsStraightForm text.now entry.now count m → ⊥)) }
    // Each instruction and each terminator takes a byte of the text.
    ensures bounded { IfOk result (λ answer. IfSome answer (λ m. instruction_count m ≤ length text.now)) }
{
    if text.len() > LONGEST_TEXT {
        return Ok(None);
    }
    match lex(alloc, text) {
        Ok(tokens) => read_tokens(alloc, text, tokens.as_slice(), entry, count),
        Err(LexFault::BadByte { .. }) => Ok(None),
        Err(LexFault::OutOfMemory) => Err(OutOfMemory),
    }
}

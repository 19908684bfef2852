//! The data layout and the target triple of a module.
ghost use Rattle.std.specs.Prelude.{◌≡◌, ◌∷◌, List, None, IfOk};
ghost use Rattle.ir_grammar.specs.Tokens.{Kept, seen};
ghost use Rattle.ir_parser.specs.Modules.{string_of, layout_from, triple_from};

use crate::entities::Entity;
use ir_grammar::{Free, Lexeme, Shape};
use ir_lexer::{Kind, Token, decode};
use ir_types::{Bytes, OutOfMemory};
use std::alloc::Global;

/// The bytes of a string.
fn string(alloc: Global, text: &[u8]) -> Result<Bytes, OutOfMemory>
    ensures { IfOk result (λ bytes. bytes ≡ string_of text.now) }
{
    let token = Token {
        kind: Kind::Str,
        from: 0,
        to: text.len(),
    };
    decode(alloc, text, token)
}

/// The layout behind one more entity.
fn layout_behind(
    alloc: Global,
    found: Option<Bytes>,
    kept: &[Lexeme],
) -> Result<Option<Bytes>, OutOfMemory>
    ensures { IfOk result (λ now. (entities : List (List Kept)) → layout_from found (seen kept.now ∷ entities) ≡ layout_from now entities) }
{
    match kept {
        [word, text] => match (word.shape, text.shape) {
            (Shape::Free(Free::Datalayout), Shape::Str) => Ok(Some(string(alloc, text.text)?)),
            _ => Ok(found),
        },
        _ => Ok(found),
    }
}

/// The triple behind one more entity.
fn triple_behind(
    alloc: Global,
    found: Option<Bytes>,
    kept: &[Lexeme],
) -> Result<Option<Bytes>, OutOfMemory>
    ensures { IfOk result (λ now. (entities : List (List Kept)) → triple_from found (seen kept.now ∷ entities) ≡ triple_from now entities) }
{
    match kept {
        [word, text] => match (word.shape, text.shape) {
            (Shape::Free(Free::Triple), Shape::Str) => Ok(Some(string(alloc, text.text)?)),
            _ => Ok(found),
        },
        _ => Ok(found),
    }
}

/// The data layout: the last that is written.
pub(crate) fn layout(alloc: Global, entities: &[Entity]) -> Result<Option<Bytes>, OutOfMemory>
    ensures { IfOk result (λ found. found ≡ layout_from None entities.now) }
{
    let mut found = None;
    for entity in entities {
        found = layout_behind(alloc, found, entity.kept())?;
    }
    Ok(found)
}

/// The target triple: the last that is written.
pub(crate) fn triple(alloc: Global, entities: &[Entity]) -> Result<Option<Bytes>, OutOfMemory>
    ensures { IfOk result (λ found. found ≡ triple_from None entities.now) }
{
    let mut found = None;
    for entity in entities {
        found = triple_behind(alloc, found, entity.kept())?;
    }
    Ok(found)
}

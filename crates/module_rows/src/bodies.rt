//! A body between other tokens of a text, skipped and read.
ghost use Rattle.std.specs.Prelude.{◌≡◌, length, IfOk};

use ir_body::{BodyFault, body_is_formed, read_body, skip_body, spelled_body_is_one};
use ir_lexer::{LexFault, Token, lex};
use ir_parser::{
    a_spelled_text_has_no_cause, a_text_spells_one_module, items_are_within_the_text,
    the_cause_is_one_entity,
};
use ir_scope::Scope;
use ir_syntax::{Func, Linkage};
use ir_types::{Bytes, Ext, OutOfMemory};
use sqlite_items::Items as List;
use std::alloc::Global;

/// A text, and the place of the token in it where a body begins.
const TEXT: &[u8] = b"define void @f() { ret void } @g";

const FROM: usize = 5;

/// What comes of the body.
#[derive(Clone, Copy, Debug, PartialEq, Eq)]
pub struct BodyRow {
    /// The place behind it, where it is skipped.
    pub skipped: Option<usize>,
    /// The place behind it and how many blocks it has, where it is read.
    pub read: Option<(usize, usize)>,
}

/// The head of a function without parameters.
fn head(alloc: Global) -> Result<Func, OutOfMemory>
    ensures { IfOk result (λ head. length head.params ≡ 0) }
{
    Ok(Func {
        name: Bytes::from_slice(alloc, b"f")?,
        linkage: Linkage::External,
        returns: None,
        ret_ext: Ext::Plain,
        params: List::new(alloc),
        variadic: false,
        body: None,
    })
}

/// The place behind the body and how many blocks it has.
fn read(alloc: Global, tokens: &[Token]) -> Result<Option<(usize, usize)>, OutOfMemory> {
    let scope = Scope::first_of(alloc, List::new(alloc), List::new(alloc))?;
    let head = head(alloc)?;
    match read_body(alloc, TEXT, tokens, FROM, &head, &[], &scope) {
        Ok((body, place)) => Ok(Some((place, body.blocks.len()))),
        Err(BodyFault::NotInSubset) => Ok(None),
        Err(BodyFault::OutOfMemory) => Err(OutOfMemory),
    }
}

/// Each law of bodies and of texts, called once.
fn laws() {
    body_is_formed();
    spelled_body_is_one();
    a_text_spells_one_module();
    items_are_within_the_text();
    a_spelled_text_has_no_cause();
    the_cause_is_one_entity();
}

/// What comes of the body.
pub fn body_row(alloc: Global) -> Result<BodyRow, OutOfMemory> {
    laws();
    let tokens = match lex(alloc, TEXT) {
        Ok(tokens) => tokens,
        Err(LexFault::BadByte { .. }) => {
            return Ok(BodyRow {
                skipped: None,
                read: None,
            });
        }
        Err(LexFault::OutOfMemory) => return Err(OutOfMemory),
    };
    Ok(BodyRow {
        skipped: skip_body(alloc, TEXT, tokens.as_slice(), FROM)?,
        read: read(alloc, tokens.as_slice())?,
    })
}

//! Rows of `ir_lexer`.
use crate::answer::Answer;
use crate::row::bytes_of;
use ir_lexer::{LexFault, Token, decode, lex, undecoded, unescape};
use ir_types::{Bytes, OutOfMemory};
use std::alloc::Global;
use std::mem::size_of;

/// What is found for a row.
pub fn answer(alloc: Global, fields: &[&str]) -> Result<Answer, OutOfMemory> {
    match fields {
        ["tokens", text] => tokens(alloc, bytes_of(alloc, *text)?.as_slice()),
        ["bytes", text] => stands_for(alloc, bytes_of(alloc, *text)?.as_slice()),
        ["unescaped", text] => {
            let text = bytes_of(alloc, *text)?;
            Ok(Answer::Copy(unescape(alloc, text.as_slice())?))
        }
        ["size of a token"] => Ok(Answer::Place(size_of::<Token>())),
        _ => Ok(Answer::NoRow),
    }
}

/// The tokens of a text, or its bad byte.
fn tokens(alloc: Global, text: &[u8]) -> Result<Answer, OutOfMemory> {
    match lex(alloc, text) {
        Ok(tokens) => Ok(Answer::Tokens(tokens)),
        Err(LexFault::BadByte { at }) => Ok(Answer::BadByte(at)),
        Err(LexFault::OutOfMemory) => Err(OutOfMemory),
    }
}

/// What the one token of a text stands for, and whether its bytes stand in the text.
fn stands_for(alloc: Global, text: &[u8]) -> Result<Answer, OutOfMemory> {
    match lex(alloc, text) {
        Ok(tokens) => match tokens.as_slice() {
            [token] => decoded(alloc, text, *token),
            _ => Ok(Answer::NoRow),
        },
        Err(LexFault::BadByte { at }) => Ok(Answer::BadByte(at)),
        Err(LexFault::OutOfMemory) => Err(OutOfMemory),
    }
}

fn decoded(alloc: Global, text: &[u8], token: Token) -> Result<Answer, OutOfMemory> {
    if token.from > token.to || token.to > text.len() {
        return Ok(Answer::NoRow);
    }
    let bytes = decode(alloc, text, token)?;
    match undecoded(text, token) {
        Some(part) => in_place(part, bytes),
        None => Ok(Answer::Copy(bytes)),
    }
}

/// Bytes that stand in a text, where they are those that were decoded.
fn in_place(part: &[u8], bytes: Bytes) -> Result<Answer, OutOfMemory> {
    if part == bytes.as_slice() {
        Ok(Answer::InPlace(bytes))
    } else {
        Ok(Answer::NoRow)
    }
}

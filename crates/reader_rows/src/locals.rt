//! Rows of `ir_locals`.
use crate::answer::{Answer, Local, is_so};
use crate::row::{bytes_of, number_of};
use ir_grammar::{Lexeme, Shape};
use ir_locals::{Locals, decimal_name, is_decimal};
use ir_types::{BinOp, Bytes, List, OutOfMemory, Scalar, is_name};
use std::alloc::Global;

/// What is found for a row.
pub fn answer(alloc: Global, fields: &[&str]) -> Result<Answer, OutOfMemory> {
    match fields {
        ["names", params, kept, asked] => names(alloc, *params, *kept, *asked),
        ["name", text] => Ok(name(bytes_of(alloc, *text)?.as_slice())),
        ["decimal", number] => Ok(Answer::Copy(decimal_name(alloc, number_of(*number))?)),
        ["name of length", count] => Ok(name(letters(alloc, number_of(*count))?.as_slice())),
        ["parameter of length", count] => parameter(alloc, letters(alloc, number_of(*count))?),
        _ => Ok(Answer::NoRow),
    }
}

fn params_of(alloc: Global, words: &str) -> Result<Vec<Bytes>, OutOfMemory> {
    let mut names = Vec::new(alloc);
    for word in words.split_ascii_whitespace() {
        names.push(Bytes::from_slice(alloc, word.as_bytes())?)?;
    }
    Ok(names)
}

/// `%x` is a result's name, `x:` a label, `add` and `call` have results, and any other word has none.
fn shape_of(word: &str) -> Shape {
    if word.starts_with("%") {
        Shape::Result
    } else if word.ends_with(":") {
        Shape::Label
    } else if word == "add" {
        Shape::Bin(BinOp::Add)
    } else if word == "call" {
        Shape::Returned(Scalar::I32)
    } else {
        Shape::Store
    }
}

fn lexemes(alloc: Global, words: &str) -> Result<Vec<Lexeme<'_>>, OutOfMemory> {
    let mut lexemes = Vec::new(alloc);
    for word in words.split_ascii_whitespace() {
        lexemes.push(Lexeme {
            shape: shape_of(word),
            text: word.as_bytes(),
        })?;
    }
    Ok(lexemes)
}

/// What a written name stands for.
fn stands_for(alloc: Global, locals: &Locals, text: &[u8]) -> Result<Local, OutOfMemory> {
    if let Some(place) = locals.block_of(alloc, text)? {
        return Ok(Local::Block(place));
    }
    match locals.operand_of(alloc, text)? {
        Some(operand) => Ok(Local::Operand(operand)),
        None => Ok(Local::Nothing),
    }
}

/// What the asked names stand for in a function with these parameters and kept tokens.
fn names(alloc: Global, params: &str, kept: &str, asked: &str) -> Result<Answer, OutOfMemory> {
    let params = params_of(alloc, params)?;
    let kept = lexemes(alloc, kept)?;
    match Locals::of(alloc, params.as_slice(), kept.as_slice())? {
        Some(locals) => Ok(Answer::Locals(all(alloc, &locals, asked)?)),
        None => Ok(Answer::None),
    }
}

fn all(alloc: Global, locals: &Locals, asked: &str) -> Result<List<Local>, OutOfMemory> {
    let mut found = List::new(alloc);
    for word in asked.split_ascii_whitespace() {
        found.push(stands_for(alloc, locals, word.as_bytes())?)?;
    }
    Ok(found)
}

fn name(text: &[u8]) -> Answer {
    let decimal = is_decimal(text);
    if is_name(text) {
        Answer::Name { decimal }
    } else {
        Answer::NoName { decimal }
    }
}

/// So many letters.
fn letters(alloc: Global, count: usize) -> Result<Bytes, OutOfMemory> {
    Ok(Bytes::from_vec(vec![in alloc; b'a'; count]?))
}

/// Whether a function may have a parameter of this name.
fn parameter(alloc: Global, name: Bytes) -> Result<Answer, OutOfMemory> {
    let mut params = Vec::new(alloc);
    params.push(name)?;
    let found = Locals::of(alloc, params.as_slice(), &[])?;
    Ok(is_so(found.is_some()))
}

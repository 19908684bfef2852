//! Rows of `ir_constants`: constants of a module of the items `@f` and `@g`, and the type `%t`.
use crate::answer::Answer;
use crate::row::number_of;
use crate::words::{add_words, lexemes};
use ir_constants::{constants_suit, read_constant};
use ir_grammar::Lexeme;
use ir_scope::{Scope, read_type};
use ir_types::{Bytes, List, OutOfMemory, Ty};
use std::alloc::Global;

/// What is found for a row.
pub fn answer(alloc: Global, fields: &[&str]) -> Result<Answer, OutOfMemory> {
    constants_suit();
    match fields {
        ["at", ty, words] => at(alloc, *ty, lexemes(alloc, *words)?.as_slice()),
        ["steps", count] => {
            let kept = repeated(alloc, "gep i8", number_of(*count), "@g", "i64 1 )")?;
            at(alloc, "ptr", kept.as_slice())
        }
        ["taken of a long array", count] => long_array(alloc, number_of(*count)),
        _ => Ok(Answer::NoRow),
    }
}

/// The type that words spell.
fn type_of(alloc: Global, scope: &Scope, words: &str) -> Result<Option<Ty>, OutOfMemory> {
    let kept = lexemes(alloc, words)?;
    match read_type(alloc, scope, kept.as_slice())? {
        Some((ty, _)) => Ok(Some(ty)),
        None => Ok(None),
    }
}

/// The module's names.
fn scope(alloc: Global) -> Result<Scope, OutOfMemory> {
    let mut symbols = List::new(alloc);
    symbols.push(Bytes::from_slice(alloc, b"f")?)?;
    symbols.push(Bytes::from_slice(alloc, b"g")?)?;
    let mut scope = Scope::first_of(alloc, List::new(alloc), symbols)?;
    if let Some(ty) = type_of(alloc, &scope, "{ i8 i32 }")? {
        scope.add_type(alloc, b"t", ty)?;
    }
    Ok(scope)
}

/// What lexemes spell at a type.
fn at(alloc: Global, ty: &str, kept: &[Lexeme]) -> Result<Answer, OutOfMemory> {
    let scope = scope(alloc)?;
    let ty = match type_of(alloc, &scope, ty)? {
        Some(ty) => ty,
        None => return Ok(Answer::NoRow),
    };
    match read_constant(alloc, &scope, &ty, kept)? {
        Some((constant, taken)) => Ok(Answer::Constant(constant, taken)),
        None => Ok(Answer::None),
    }
}

/// Words so many times, the middle, and other words as many times.
fn repeated<'a>(
    alloc: Global,
    before: &'a str,
    times: usize,
    middle: &'a str,
    behind: &'a str,
) -> Result<Vec<Lexeme<'a>>, OutOfMemory> {
    let mut kept = Vec::new(alloc);
    add_times(&mut kept, before, times)?;
    add_words(&mut kept, middle)?;
    add_times(&mut kept, behind, times)?;
    Ok(kept)
}

fn add_times<'a>(
    kept: &mut Vec<Lexeme<'a>>,
    words: &'a str,
    times: usize,
) -> Result<(), OutOfMemory> {
    for _ in 0..times {
        add_words(kept, words)?;
    }
    Ok(())
}

/// How many lexemes an array of 20,000 bytes takes that is written with so many.
fn long_array(alloc: Global, count: usize) -> Result<Answer, OutOfMemory> {
    let mut kept = lexemes(alloc, "[")?;
    add_times(&mut kept, "i8 1", count)?;
    add_words(&mut kept, "]")?;
    match at(alloc, "[ 20000 i8", kept.as_slice())? {
        Answer::Constant(_, taken) => Ok(Answer::Place(taken)),
        other => Ok(other),
    }
}

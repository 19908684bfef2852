//! Rows of `ir_grammar`.
use crate::answer::{Answer, number};
use crate::row::{bytes_of, number_of as count_of};
use ir_grammar::{Lexeme, Name, Shape, exponent_of, number_of, read_nonterminal};
use ir_lexer::{Kind, LexFault, Token, lex};
use ir_types::{Bytes, List, OutOfMemory};
use std::alloc::Global;

/// What is found for a row.
pub fn answer(alloc: Global, fields: &[&str]) -> Result<Answer, OutOfMemory> {
    match fields {
        ["spelled", name, text] => {
            let text = bytes_of(alloc, *text)?;
            spelled(alloc, name_of(*name), text.as_slice())
        }
        ["kept", name, text] => {
            let text = bytes_of(alloc, *text)?;
            kept(alloc, name_of(*name), text.as_slice())
        }
        ["deep", name, depth, open, middle, close] => {
            let text = nested(alloc, count_of(*depth), *open, *middle, *close)?;
            spelled(alloc, name_of(*name), text.as_slice())
        }
        _ => numbered(alloc, fields),
    }
}

/// What is found for a row about a number.
fn numbered(alloc: Global, fields: &[&str]) -> Result<Answer, OutOfMemory> {
    match fields {
        ["attribute from", place] => from(alloc, count_of(*place), Name::Attribute),
        ["entity from", place] => from(alloc, count_of(*place), Name::Entity),
        ["number", digits] => Ok(number(number_of(digits.as_bytes()))),
        ["nines", count] => {
            let text = nested(alloc, count_of(*count), "9", "", "")?;
            Ok(number(number_of(text.as_slice())))
        }
        ["exponent", digits] => Ok(number(exponent_of(count_of(*digits) as u64).map(u64::from))),
        _ => Ok(Answer::NoRow),
    }
}

fn name_of(word: &str) -> Name {
    match word {
        "Type" => Name::Type,
        "Constant" => Name::Constant,
        "NamedLine" => Name::NamedLine(false),
        "Body" => Name::Body,
        "Entity" => Name::Entity,
        _ => Name::Attribute,
    }
}

/// The tokens of a text, where it has tokens.
fn tokens_of(alloc: Global, text: &[u8]) -> Result<Option<List<Token>>, OutOfMemory> {
    match lex(alloc, text) {
        Ok(tokens) => Ok(Some(tokens)),
        Err(LexFault::OutOfMemory) => Err(OutOfMemory),
        Err(LexFault::BadByte { .. }) => Ok(None),
    }
}

/// How much of a text a nonterminal derives: all of its tokens, a part of them, or none.
fn spelled(alloc: Global, start: Name, text: &[u8]) -> Result<Answer, OutOfMemory> {
    let tokens = match tokens_of(alloc, text)? {
        Some(tokens) => tokens,
        None => return Ok(Answer::NoRow),
    };
    match read_nonterminal(alloc, text, tokens.as_slice(), 0, start)? {
        Some((_, place)) => Ok(as_far(place, tokens.len())),
        None => Ok(Answer::None),
    }
}

fn as_far(place: usize, count: usize) -> Answer {
    if place == count {
        Answer::Whole
    } else {
        Answer::Part(place)
    }
}

/// The place behind what a nonterminal derives, and what is kept.
fn kept(alloc: Global, start: Name, text: &[u8]) -> Result<Answer, OutOfMemory> {
    let tokens = match tokens_of(alloc, text)? {
        Some(tokens) => tokens,
        None => return Ok(Answer::NoRow),
    };
    match read_nonterminal(alloc, text, tokens.as_slice(), 0, start)? {
        Some((kept, place)) => Ok(Answer::Kept(place, line_of(alloc, &kept)?)),
        None => Ok(Answer::None),
    }
}

/// What a token that is kept stands for, where its text doesn't tell.
fn role(shape: Shape) -> &'static str {
    match shape {
        Shape::Result => "result:",
        Shape::Address => "address:",
        Shape::Returned(_) => "returned:",
        _ => "",
    }
}

fn line_of(alloc: Global, kept: &[Lexeme]) -> Result<String, OutOfMemory> {
    let mut line = String::new(alloc);
    for lexeme in kept {
        line.push_str(" ")?;
        line.push_str(role(lexeme.shape))?;
        line.push_str(str::from_utf8(lexeme.text).unwrap_or("no text"))?;
    }
    Ok(line)
}

/// Adds a part so many times.
fn repeat(alloc: Global, text: &mut Bytes, times: usize, part: &str) -> Result<(), OutOfMemory> {
    let part = bytes_of(alloc, part)?;
    for _ in 0..times {
        text.append(part.as_slice())?;
    }
    Ok(())
}

/// A part so many times, the middle, and another part as many times.
fn nested(
    alloc: Global,
    depth: usize,
    open: &str,
    middle: &str,
    close: &str,
) -> Result<Bytes, OutOfMemory> {
    let mut text = Bytes::new(alloc);
    repeat(alloc, &mut text, depth, open)?;
    repeat(alloc, &mut text, 1, middle)?;
    repeat(alloc, &mut text, depth, close)?;
    Ok(text)
}

/// The tokens of `i8 nounwind i16`, the last at a wrong place.
const TOKENS: [Token; 3] = [
    Token {
        kind: Kind::Word,
        from: 0,
        to: 2,
    },
    Token {
        kind: Kind::Word,
        from: 3,
        to: 11,
    },
    Token {
        kind: Kind::Word,
        from: 90,
        to: 80,
    },
];

/// The place behind what a nonterminal derives from a place on.
fn from(alloc: Global, from: usize, start: Name) -> Result<Answer, OutOfMemory> {
    match read_nonterminal(alloc, b"i8 nounwind i16", &TOKENS, from, start)? {
        Some((_, place)) => Ok(Answer::Place(place)),
        None => Ok(Answer::None),
    }
}

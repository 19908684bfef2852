//! Kept lexemes from words with a blank between them.
use ir_grammar::{AtName, Digits, Flag, Free, Lexeme, Shape, Value};
use ir_types::{OutOfMemory, Scalar};
use std::alloc::Global;

/// The scalar of a word.
fn scalar_of(word: &str) -> Option<Scalar> {
    match word {
        "i1" => Some(Scalar::I1),
        "i8" => Some(Scalar::I8),
        "i16" => Some(Scalar::I16),
        "i32" => Some(Scalar::I32),
        "i64" => Some(Scalar::I64),
        "ptr" => Some(Scalar::Ptr),
        _ => None,
    }
}

/// The scalar that a field names.
pub fn scalar(word: &str) -> Scalar {
    match scalar_of(word) {
        Some(ty) => ty,
        None => Scalar::Ptr,
    }
}

/// The value of a word.
fn value_of(word: &str) -> Option<Value> {
    match word {
        "true" => Some(Value::True),
        "false" => Some(Value::False),
        "null" => Some(Value::Null),
        "undef" => Some(Value::Undef),
        "poison" => Some(Value::Poison),
        "zeroinitializer" => Some(Value::Zero),
        _ => None,
    }
}

/// The shape of a mark or a word; `gep` stands for `getelementptr` of a constant.
fn mark_of(word: &str) -> Option<Shape> {
    match word {
        "[" => Some(Shape::OpenSquare),
        "]" => Some(Shape::CloseSquare),
        "{" => Some(Shape::OpenBrace),
        "}" => Some(Shape::CloseBrace),
        ")" => Some(Shape::CloseParen),
        "inbounds" => Some(Shape::Free(Free::Flag(Flag::Inbounds))),
        "gep" => Some(Shape::Address),
        "opaque" => Some(Shape::Opaque),
        _ => None,
    }
}

/// The shape of a name, a text or an integer.
fn text_shape(text: &[u8]) -> Shape {
    match text {
        [b'@', ..] => Shape::At(AtName::Plain),
        [b'%', ..] => Shape::Local,
        [b'c', ..] => Shape::CStr,
        _ => Shape::Int(Digits::Other),
    }
}

fn shape_of(word: &str) -> Shape {
    if let Some(ty) = scalar_of(word) {
        return Shape::Scalar(ty);
    }
    if let Some(value) = value_of(word) {
        return Shape::Value(value);
    }
    match mark_of(word) {
        Some(shape) => shape,
        None => text_shape(word.as_bytes()),
    }
}

/// Adds the lexemes of words with a blank between them.
pub fn add_words<'a>(kept: &mut Vec<Lexeme<'a>>, words: &'a str) -> Result<(), OutOfMemory> {
    for word in words.split(' ') {
        kept.push(Lexeme {
            shape: shape_of(word),
            text: word.as_bytes(),
        })?;
    }
    Ok(())
}

/// The lexemes of words with a blank between them.
pub fn lexemes(alloc: Global, words: &str) -> Result<Vec<Lexeme<'_>>, OutOfMemory> {
    let mut kept = Vec::new(alloc);
    add_words(&mut kept, words)?;
    Ok(kept)
}

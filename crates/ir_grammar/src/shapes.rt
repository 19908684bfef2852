//! The shape of a token, by its kind and text.
ghost use Rattle.std.specs.Prelude.{◌≡◌, ◌∷◌, [], IfOk, drop};
ghost use Rattle.ir_lexer.specs.Texts.{name_of};
ghost use Rattle.ir_lexer.specs.declared.token.Kind.TheVariants as kind;
ghost use Rattle.ir_syntax.specs.FormedBody.{is_intrinsic};
ghost use Rattle.ir_grammar.specs.declared.shape.Shape.TheVariants as is;
ghost use Rattle.ir_grammar.specs.Shapes.{at_shape, mark_of, mark_shape, shape_of};

use crate::numbers::digits_shape;
use crate::shape::{AtName, Shape};
use crate::words::word_shape;
use ir_lexer::{Kind, Token, decode, undecoded};
use ir_types::OutOfMemory;
use std::alloc::Global;

/// What a name after `@` names, given without its quotes.
fn at_shape(name: &[u8]) -> AtName
    ensures { result ≡ at_shape name.now }
{
    if is_memory(name) {
        return AtName::Memory;
    }
    if name.starts_with(b"llvm.dbg.") || name.starts_with(b"llvm.lifetime.") {
        return AtName::Debug;
    }
    if name.starts_with(b"llvm.") {
        AtName::Other
    } else {
        AtName::Plain
    }
}

/// Whether this is an intrinsic that copies or fills memory.
fn is_memory(name: &[u8]) -> bool
    ensures { result ≡ is_intrinsic name.now }
{
    name == b"llvm.memcpy.p0.p0.i64".as_slice()
        || name == b"llvm.memmove.p0.p0.i64".as_slice()
        || name == b"llvm.memset.p0.i64".as_slice()
}

/// The shape of a name with its `@`. Only a name with a backslash takes memory.
fn at_name_shape(alloc: Global, text: &[u8]) -> Result<Shape, OutOfMemory>
    ensures { IfOk result (λ shape. shape ≡ is.At (at_shape (name_of (drop 1 text.now)))) }
{
    let token = Token {
        kind: Kind::AtName,
        from: 0,
        to: text.len(),
    };
    let name = match undecoded(text, token) {
        Some(name) => at_shape(name),
        None => at_shape(decode(alloc, text, token)?.as_slice()),
    };
    Ok(Shape::At(name))
}

/// The shape of a mark.
fn mark_of(byte: u8) -> Shape
    ensures { result ≡ mark_of byte }
{
    match byte {
        b'=' => Shape::Equals,
        b',' => Shape::Comma,
        b'(' => Shape::OpenParen,
        b')' => Shape::CloseParen,
        b'[' => Shape::OpenSquare,
        b']' => Shape::CloseSquare,
        b'{' => Shape::OpenBrace,
        b'}' => Shape::CloseBrace,
        _ => Shape::OtherMark,
    }
}

fn mark_shape(text: &[u8]) -> Shape
    ensures { result ≡ mark_shape text.now }
{
    match text {
        [byte, ..] => mark_of(*byte),
        [] => Shape::OtherMark,
    }
}

fn hash_shape(text: &[u8]) -> Shape
    ensures { result ≡ shape_of kind.Hash text.now }
{
    if text.starts_with(b"#dbg_") {
        Shape::Record
    } else {
        Shape::Hash
    }
}

fn meta_shape(text: &[u8]) -> Shape
    ensures { result ≡ shape_of kind.Meta text.now }
{
    if text == b"!".as_slice() {
        Shape::Bang
    } else {
        Shape::Meta
    }
}

/// The shape of a token.
pub fn shape_of(alloc: Global, kind: Kind, text: &[u8]) -> Result<Shape, OutOfMemory>
    ensures { IfOk result (λ shape. shape ≡ shape_of kind text.now) }
{
    match kind {
        Kind::AtName => at_name_shape(alloc, text),
        Kind::LocalName => Ok(Shape::Local),
        Kind::Hash => Ok(hash_shape(text)),
        Kind::Meta => Ok(meta_shape(text)),
        Kind::Str => Ok(Shape::Str),
        Kind::CStr => Ok(Shape::CStr),
        Kind::Label => Ok(Shape::Label),
        Kind::Word => Ok(word_shape(text)),
        Kind::Int => Ok(Shape::Int(digits_shape(text))),
        Kind::Mark => Ok(mark_shape(text)),
    }
}

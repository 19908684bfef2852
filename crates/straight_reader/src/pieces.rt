//! What a single token says.
ghost use Rattle.std.specs.Prelude.{◌≡◌, Some, None, MatchOption, IfOk};
ghost use Rattle.straight_reader.specs.Readings.{is_word, is_mark, is_local, behind, at_of, local_of, value_of};

use ir_lexer::Kind;
use ir_types::{Bytes, OutOfMemory};
use std::alloc::Global;
use straight_form::{Lexeme, Value};

/// Whether the lexeme is this word.
pub fn is_word(lexeme: &Lexeme, word: &[u8]) -> bool
    ensures { result ≡ is_word word.now lexeme.now.kind lexeme.now.text.now }
{
    match lexeme.kind {
        Kind::Word => lexeme.text == word,
        Kind::AtName
        | Kind::LocalName
        | Kind::Hash
        | Kind::Meta
        | Kind::Str
        | Kind::CStr
        | Kind::Label
        | Kind::Int
        | Kind::Mark => false,
    }
}

/// Whether the lexeme is this mark.
pub fn is_mark(lexeme: &Lexeme, mark: u8) -> bool
    ensures { result ≡ is_mark mark lexeme.now.kind lexeme.now.text.now }
{
    match lexeme.kind {
        Kind::Mark => lexeme.text == [mark].as_slice(),
        Kind::AtName
        | Kind::LocalName
        | Kind::Hash
        | Kind::Meta
        | Kind::Str
        | Kind::CStr
        | Kind::Label
        | Kind::Word
        | Kind::Int => false,
    }
}

/// Whether the lexeme is `%` and a name.
pub fn is_local(lexeme: &Lexeme) -> bool
    ensures { result ≡ is_local lexeme.now.kind }
{
    match lexeme.kind {
        Kind::LocalName => true,
        Kind::AtName
        | Kind::Hash
        | Kind::Meta
        | Kind::Str
        | Kind::CStr
        | Kind::Label
        | Kind::Word
        | Kind::Int
        | Kind::Mark => false,
    }
}

/// What stands behind the sign, where the text begins with it.
fn behind(alloc: Global, sign: u8, text: &[u8]) -> Result<Option<Bytes>, OutOfMemory>
    ensures { IfOk result (λ found. found ≡ behind sign text.now) }
{
    match text {
        [first, rest @ ..] => {
            if *first == sign {
                Ok(Some(Bytes::from_slice(alloc, rest)?))
            } else {
                Ok(None)
            }
        }
        [] => Ok(None),
    }
}

/// The name, where the lexeme is `@` and a name.
pub fn at_name(alloc: Global, lexeme: &Lexeme) -> Result<Option<Bytes>, OutOfMemory>
    ensures { IfOk result (λ found. found ≡ at_of lexeme.now.kind lexeme.now.text.now) }
{
    match lexeme.kind {
        Kind::AtName => behind(alloc, b'@', lexeme.text),
        Kind::LocalName
        | Kind::Hash
        | Kind::Meta
        | Kind::Str
        | Kind::CStr
        | Kind::Label
        | Kind::Word
        | Kind::Int
        | Kind::Mark => Ok(None),
    }
}

/// The name, where the lexeme is `%` and a name.
pub fn local_name(alloc: Global, lexeme: &Lexeme) -> Result<Option<Bytes>, OutOfMemory>
    ensures { IfOk result (λ found. found ≡ local_of lexeme.now.kind lexeme.now.text.now) }
{
    match lexeme.kind {
        Kind::LocalName => behind(alloc, b'%', lexeme.text),
        Kind::AtName
        | Kind::Hash
        | Kind::Meta
        | Kind::Str
        | Kind::CStr
        | Kind::Label
        | Kind::Word
        | Kind::Int
        | Kind::Mark => Ok(None),
    }
}

/// The operand, where the lexeme is an integer or the name of a register.
pub fn value(alloc: Global, lexeme: &Lexeme) -> Result<Option<Value>, OutOfMemory>
    ensures { IfOk result (λ found. found ≡ value_of lexeme.now.kind lexeme.now.text.now) }
{
    match lexeme.kind {
        Kind::Int => Ok(Some(Value::Number(Bytes::from_slice(alloc, lexeme.text)?))),
        Kind::LocalName => match behind(alloc, b'%', lexeme.text)? {
            Some(name) => Ok(Some(Value::Local(name))),
            None => Ok(None),
        },
        Kind::AtName
        | Kind::Hash
        | Kind::Meta
        | Kind::Str
        | Kind::CStr
        | Kind::Label
        | Kind::Word
        | Kind::Mark => Ok(None),
    }
}

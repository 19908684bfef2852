//! What is found for a row.
use ir_lexer::Token;
use ir_syntax::{Const, Operand};
use ir_types::{Bytes, List};

/// What a name of a function stands for.
#[derive(Debug, Drop)]
pub enum Local {
    Operand(Operand),
    Block(usize),
    Nothing,
}

/// What is found for a row.
#[derive(Debug, Drop)]
pub enum Answer {
    /// There is nothing such.
    None,
    /// The row tries nothing.
    NoRow,
    Yes,
    No,
    Number(u64),
    Place(usize),
    BadByte(usize),
    Tokens(List<Token>),
    /// Bytes that stand in the text.
    InPlace(Bytes),
    /// Bytes that don't stand in the text as they are.
    Copy(Bytes),
    /// All tokens are spelled.
    Whole,
    /// Some of the tokens are spelled, up to this place.
    Part(usize),
    /// The place behind what is spelled, and what is kept of it.
    Kept(usize, String),
    /// A constant, and how many lexemes spell it.
    Constant(Const, usize),
    /// A name, and whether it is decimal.
    Name { decimal: bool },
    /// No name, and whether it is decimal.
    NoName { decimal: bool },
    /// What names of a function stand for.
    Locals(List<Local>),
    /// What a name stands for, and whether a module may have the entity.
    Type { stands: Stands, entity: bool },
}

/// What a name of a type stands for.
#[derive(Clone, Copy, Debug, PartialEq, Eq)]
pub enum Stands {
    /// The type that is asked for.
    ForThis,
    /// Another type.
    ForAnother,
    ForNothing,
}

/// Whether something is so.
pub fn is_so(so: bool) -> Answer {
    if so { Answer::Yes } else { Answer::No }
}

/// The number, where there is one.
pub fn number(found: Option<u64>) -> Answer {
    match found {
        Some(number) => Answer::Number(number),
        None => Answer::None,
    }
}

/// The place, where there is one.
pub fn place(found: Option<usize>) -> Answer {
    match found {
        Some(place) => Answer::Place(place),
        None => Answer::None,
    }
}

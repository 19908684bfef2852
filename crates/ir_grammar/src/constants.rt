//! Constants and operands.
ghost use Rattle.std.specs.Prelude.{◌≡◌};
ghost use Rattle.ir_grammar.specs.Constants.{constant_index, number, constant};
ghost use Rattle.ir_grammar.specs.Mirrors.Steps.{by_rule};
ghost use Rattle.ir_grammar.specs.Mirrors.Walk.{first_of};

use crate::grammar::{Item, Keep, Name, Terminal};
use crate::items::{ADDRESS_FLAGS, CLOSE_PAREN, COMMA, OPEN_PAREN, POINTER};
use crate::rules::Rule;
use crate::shape::{Shape, Value};

/// `, iN n`.
pub fn constant_index(shape: Shape) -> Option<Rule>
    ensures { by_rule result ≡ first_of constant_index shape }
{
    match shape {
        Shape::Comma => Some(Rule::drops(&[
            Item::Token(Terminal::IntegerScalar, Keep::Keeps),
            Item::One(Name::Number),
        ])),
        _ => None,
    }
}

/// An integer, `true`, `false` or `zeroinitializer`.
pub fn number(shape: Shape) -> Option<Rule>
    ensures { by_rule result ≡ first_of number shape }
{
    match shape {
        Shape::Int(_) => Some(Rule::keeps(&[])),
        Shape::Value(Value::True | Value::False | Value::Zero) => Some(Rule::keeps(&[])),
        _ => None,
    }
}

/// A number, a word for a value, `@name`, `c"text"`, an address, `[ T C, T C ]` or `{ T C, T C }`.
pub fn constant(shape: Shape) -> Option<Rule>
    ensures { by_rule result ≡ first_of constant shape }
{
    match shape {
        Shape::Int(_) => Some(Rule::keeps(&[])),
        Shape::Value(_) => Some(Rule::keeps(&[])),
        Shape::At(_) => Some(Rule::keeps(&[])),
        Shape::CStr => Some(Rule::keeps(&[])),
        Shape::Gep => Some(Rule::as_address(&[
            ADDRESS_FLAGS,
            OPEN_PAREN,
            Item::One(Name::Type),
            COMMA,
            POINTER,
            Item::One(Name::Base(1)),
            Item::Many(Name::ConstantIndex),
            CLOSE_PAREN,
        ])),
        Shape::OpenSquare => Some(Rule::keeps(&[
            Item::Separated(Name::Element),
            Item::Token(Terminal::Only(Shape::CloseSquare), Keep::Keeps),
        ])),
        Shape::OpenBrace => Some(Rule::keeps(&[
            Item::Separated(Name::Element),
            Item::Token(Terminal::Only(Shape::CloseBrace), Keep::Keeps),
        ])),
        _ => None,
    }
}

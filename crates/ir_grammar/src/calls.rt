//! Calls.
ghost use Rattle.std.specs.Prelude.{◌≡◌};
ghost use Rattle.ir_grammar.specs.Calls.{whole_type, types, more_types, next_type, argument, named_call};
ghost use Rattle.ir_grammar.specs.Mirrors.Steps.{by_rule};
ghost use Rattle.ir_grammar.specs.Mirrors.Walk.{first_of};

use crate::grammar::{Item, Keep, Name, Terminal};
use crate::items::{ATTACHMENTS, ATTRIBUTES, CLOSE_PAREN, OPEN_PAREN, OPERAND};
use crate::rules::Rule;
use crate::shape::Shape;

/// `( types )`.
pub fn whole_type(shape: Shape) -> Option<Rule>
    ensures { by_rule result ≡ first_of whole_type shape }
{
    match shape {
        Shape::OpenParen => Some(Rule::keeps(&[Item::One(Name::Types)])),
        _ => None,
    }
}

/// `)`, `... )`, or `T` and more of them.
pub fn types(shape: Shape) -> Option<Rule>
    ensures { by_rule result ≡ first_of types shape }
{
    match shape {
        Shape::CloseParen => Some(Rule::keeps(&[])),
        Shape::Dots => Some(Rule::keeps(&[Item::Token(
            Terminal::Only(Shape::CloseParen),
            Keep::Keeps,
        )])),
        Shape::Scalar(_) => Some(Rule::keeps(&[Item::One(Name::MoreTypes)])),
        _ => None,
    }
}

/// `)`, or a comma and more types.
pub fn more_types(shape: Shape) -> Option<Rule>
    ensures { by_rule result ≡ first_of more_types shape }
{
    match shape {
        Shape::CloseParen => Some(Rule::keeps(&[])),
        Shape::Comma => Some(Rule::drops(&[Item::One(Name::NextType)])),
        _ => None,
    }
}

/// `... )`, or `T` and more of them.
pub fn next_type(shape: Shape) -> Option<Rule>
    ensures { by_rule result ≡ first_of next_type shape }
{
    match shape {
        Shape::Dots => Some(Rule::keeps(&[Item::Token(
            Terminal::Only(Shape::CloseParen),
            Keep::Keeps,
        )])),
        Shape::Scalar(_) => Some(Rule::keeps(&[Item::One(Name::MoreTypes)])),
        _ => None,
    }
}

/// `T attributes a`.
pub fn argument(shape: Shape) -> Option<Rule>
    ensures { by_rule result ≡ first_of argument shape }
{
    match shape {
        Shape::Scalar(_) => Some(Rule::keeps(&[
            ATTRIBUTES,
            Item::May(Name::Extension),
            ATTRIBUTES,
            OPERAND,
        ])),
        _ => None,
    }
}

/// `[tail] call attributes T [( types )] f ( arguments ) attributes attachments`.
pub fn named_call(shape: Shape) -> Option<Rule>
    ensures { by_rule result ≡ first_of named_call shape }
{
    match shape {
        Shape::Call => Some(Rule::keeps(&[
            ATTRIBUTES,
            Item::May(Name::Extension),
            ATTRIBUTES,
            Item::Token(Terminal::AnyScalar, Keep::AsReturned),
            Item::May(Name::WholeType),
            OPERAND,
            OPEN_PAREN,
            Item::Separated(Name::Argument),
            CLOSE_PAREN,
            Item::Many(Name::CallAttribute),
            ATTACHMENTS,
        ])),
        Shape::Tail => Some(Rule::drops(&[
            Item::Token(Terminal::Only(Shape::Call), Keep::Keeps),
            ATTRIBUTES,
            Item::May(Name::Extension),
            ATTRIBUTES,
            Item::Token(Terminal::AnyScalar, Keep::AsReturned),
            Item::May(Name::WholeType),
            OPERAND,
            OPEN_PAREN,
            Item::Separated(Name::Argument),
            CLOSE_PAREN,
            Item::Many(Name::CallAttribute),
            ATTACHMENTS,
        ])),
        _ => None,
    }
}

//! Types.
ghost use Rattle.std.specs.Prelude.{◌≡◌};
ghost use Rattle.ir_grammar.specs.Types.{type};
ghost use Rattle.ir_grammar.specs.Mirrors.Steps.{by_rule};
ghost use Rattle.ir_grammar.specs.Mirrors.Walk.{first_of};

use crate::grammar::{Item, Keep, Name, Terminal};
use crate::items::CLOSE_SQUARE;
use crate::rules::Rule;
use crate::shape::Shape;

/// `iN` or `ptr`, `%name`, `[ n x T ]`, `{ T, T }`.
pub fn ty(shape: Shape) -> Option<Rule>
    ensures { by_rule result ≡ first_of type shape }
{
    match shape {
        Shape::Scalar(_) => Some(Rule::keeps(&[])),
        Shape::Local => Some(Rule::keeps(&[])),
        Shape::OpenSquare => Some(Rule::keeps(&[
            Item::Token(Terminal::CountInt, Keep::Keeps),
            Item::Token(Terminal::Only(Shape::X), Keep::Drops),
            Item::One(Name::Type),
            CLOSE_SQUARE,
        ])),
        Shape::OpenBrace => Some(Rule::keeps(&[
            Item::Separated(Name::Type),
            Item::Token(Terminal::Only(Shape::CloseBrace), Keep::Keeps),
        ])),
        _ => None,
    }
}

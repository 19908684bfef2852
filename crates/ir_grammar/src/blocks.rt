//! Bodies, blocks, phis and terminators.
ghost use Rattle.std.specs.Prelude.{◌≡◌};
ghost use Rattle.ir_grammar.specs.Blocks.{body, block, label_alone, phi_alone, entry_part, entry_or_attachment, terminators, return_value, branch};
ghost use Rattle.ir_grammar.specs.Mirrors.Steps.{by_rule};
ghost use Rattle.ir_grammar.specs.Mirrors.Walk.{first_of};

use crate::grammar::{Item, Keep, Name, Terminal};
use crate::items::{A_LOCAL, A_SCALAR, ATTACHMENTS, CLOSE_SQUARE, COMMA, LABEL, OPERAND};
use crate::rules::Rule;
use crate::shape::Shape;
use ir_types::Scalar;

/// `{ [label] lines blocks }`.
pub fn body(shape: Shape) -> Option<Rule>
    ensures { by_rule result ≡ first_of body shape }
{
    match shape {
        Shape::OpenBrace => Some(Rule::keeps(&[
            Item::May(Name::Label),
            Item::One(Name::Lines(true)),
            Item::Many(Name::Block),
            Item::Token(Terminal::Only(Shape::CloseBrace), Keep::Keeps),
        ])),
        _ => None,
    }
}

/// `label lines`.
pub fn block(shape: Shape) -> Option<Rule>
    ensures { by_rule result ≡ first_of block shape }
{
    match shape {
        Shape::Label => Some(Rule::keeps(&[Item::One(Name::Lines(true))])),
        _ => None,
    }
}

/// A label.
pub fn label_alone(shape: Shape) -> Option<Rule>
    ensures { by_rule result ≡ first_of label_alone shape }
{
    match shape {
        Shape::Label => Some(Rule::keeps(&[])),
        _ => None,
    }
}

/// `phi T [ a, %l ], [ b, %m ] attachments`, behind which phis may still come.
pub fn phi_alone(shape: Shape) -> Option<Rule>
    ensures { by_rule result ≡ first_of phi_alone shape }
{
    match shape {
        Shape::Phi => Some(Rule::keeps(&[
            A_SCALAR,
            Item::Token(Terminal::Only(Shape::OpenSquare), Keep::Keeps),
            OPERAND,
            COMMA,
            A_LOCAL,
            CLOSE_SQUARE,
            Item::May(Name::EntryPart),
            Item::One(Name::Lines(true)),
        ])),
        _ => None,
    }
}

/// `,` and an entry or an attachment.
pub fn entry_part(shape: Shape) -> Option<Rule>
    ensures { by_rule result ≡ first_of entry_part shape }
{
    match shape {
        Shape::Comma => Some(Rule::drops(&[Item::One(Name::EntryOrAttachment)])),
        _ => None,
    }
}

/// `[ a, %l ]` and more of them, or `!name node attachments`.
pub fn entry_or_attachment(shape: Shape) -> Option<Rule>
    ensures { by_rule result ≡ first_of entry_or_attachment shape }
{
    match shape {
        Shape::OpenSquare => Some(Rule::keeps(&[
            OPERAND,
            COMMA,
            A_LOCAL,
            CLOSE_SQUARE,
            Item::May(Name::EntryPart),
        ])),
        Shape::Bang | Shape::Meta => Some(Rule::drops(&[
            Item::One(Name::AttachedNode),
            ATTACHMENTS,
        ])),
        _ => None,
    }
}

/// A terminator.
pub fn terminators(shape: Shape) -> Option<Rule>
    ensures { by_rule result ≡ first_of terminators shape }
{
    match shape {
        Shape::Ret => Some(Rule::keeps(&[Item::One(Name::ReturnValue), ATTACHMENTS])),
        Shape::Br => Some(Rule::keeps(&[Item::One(Name::Branch), ATTACHMENTS])),
        Shape::Switch => Some(Rule::keeps(&[Item::One(Name::SwitchType), ATTACHMENTS])),
        Shape::Unreachable => Some(Rule::keeps(&[ATTACHMENTS])),
        _ => None,
    }
}

/// `void` or `T a`.
pub fn return_value(shape: Shape) -> Option<Rule>
    ensures { by_rule result ≡ first_of return_value shape }
{
    match shape {
        Shape::Void => Some(Rule::keeps(&[])),
        Shape::Scalar(_) => Some(Rule::keeps(&[OPERAND])),
        _ => None,
    }
}

/// `label %l`, or `i1 c, label %l, label %m`.
pub fn branch(shape: Shape) -> Option<Rule>
    ensures { by_rule result ≡ first_of branch shape }
{
    match shape {
        Shape::LabelWord => Some(Rule::drops(&[Item::Token(
            Terminal::Only(Shape::Local),
            Keep::Keeps,
        )])),
        Shape::Scalar(Scalar::I1) => Some(Rule::keeps(&[
            OPERAND, COMMA, LABEL, A_LOCAL, COMMA, LABEL, A_LOCAL,
        ])),
        _ => None,
    }
}

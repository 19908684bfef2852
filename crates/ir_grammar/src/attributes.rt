//! Attributes, groups and metadata, which are dropped; but one extension of a value is kept.
ghost use Rattle.std.specs.Prelude.{◌≡◌};
ghost use Rattle.ir_grammar.specs.Attributes.{parenthesized, parentheses_part, braced, braces_part, group, attribute, call_attribute, equal_string, attribute_align, extension, attachment, attached_node, comma_attachment, align_part, align_or_attachment, meta_value, meta_node};
ghost use Rattle.ir_grammar.specs.Mirrors.Steps.{by_rule};
ghost use Rattle.ir_grammar.specs.Mirrors.Walk.{first_of};

use crate::grammar::{Item, Keep, Name, Terminal};
use crate::items::{ATTACHMENTS, POWER};
use crate::rules::Rule;
use crate::shape::{Digits, Shape};

/// `( .. )`.
pub fn parenthesized(shape: Shape) -> Option<Rule>
    ensures { by_rule result ≡ first_of parenthesized shape }
{
    match shape {
        Shape::OpenParen => Some(Rule::drops(&[
            Item::Many(Name::ParenthesesPart),
            Item::Token(Terminal::Only(Shape::CloseParen), Keep::Drops),
        ])),
        _ => None,
    }
}

/// Between parentheses: `( .. )` again, or any other token.
pub fn parentheses_part(shape: Shape) -> Option<Rule>
    ensures { by_rule result ≡ first_of parentheses_part shape }
{
    match shape {
        Shape::OpenParen => Some(Rule::drops(&[
            Item::Many(Name::ParenthesesPart),
            Item::Token(Terminal::Only(Shape::CloseParen), Keep::Drops),
        ])),
        Shape::CloseParen => None,
        _ => Some(Rule::drops(&[])),
    }
}

/// `{ .. }`.
pub fn braced(shape: Shape) -> Option<Rule>
    ensures { by_rule result ≡ first_of braced shape }
{
    match shape {
        Shape::OpenBrace => Some(Rule::drops(&[
            Item::Many(Name::BracesPart),
            Item::Token(Terminal::Only(Shape::CloseBrace), Keep::Drops),
        ])),
        _ => None,
    }
}

/// Between braces: `{ .. }` again, or any other token.
pub fn braces_part(shape: Shape) -> Option<Rule>
    ensures { by_rule result ≡ first_of braces_part shape }
{
    match shape {
        Shape::OpenBrace => Some(Rule::drops(&[
            Item::Many(Name::BracesPart),
            Item::Token(Terminal::Only(Shape::CloseBrace), Keep::Drops),
        ])),
        Shape::CloseBrace => None,
        _ => Some(Rule::drops(&[])),
    }
}

/// `( .. )` or `{ .. }`.
pub fn group(shape: Shape) -> Option<Rule>
    ensures { by_rule result ≡ first_of group shape }
{
    match shape {
        Shape::OpenParen => Some(Rule::drops(&[
            Item::Many(Name::ParenthesesPart),
            Item::Token(Terminal::Only(Shape::CloseParen), Keep::Drops),
        ])),
        Shape::OpenBrace => Some(Rule::drops(&[
            Item::Many(Name::BracesPart),
            Item::Token(Terminal::Only(Shape::CloseBrace), Keep::Drops),
        ])),
        _ => None,
    }
}

/// `word [( .. )]`, `string [= string]`, `#name` or `align n`.
pub fn attribute(shape: Shape) -> Option<Rule>
    ensures { by_rule result ≡ first_of attribute shape }
{
    match shape {
        Shape::Free(_) => Some(Rule::drops(&[Item::May(Name::Parenthesized)])),
        Shape::Str => Some(Rule::drops(&[Item::May(Name::EqualString)])),
        Shape::Hash | Shape::Record => Some(Rule::drops(&[])),
        Shape::Align => Some(Rule::drops(&[Item::One(Name::AttributeAlign)])),
        _ => None,
    }
}

/// The same, but no debug record.
pub fn call_attribute(shape: Shape) -> Option<Rule>
    ensures { by_rule result ≡ first_of call_attribute shape }
{
    match shape {
        Shape::Free(_) => Some(Rule::drops(&[Item::May(Name::Parenthesized)])),
        Shape::Str => Some(Rule::drops(&[Item::May(Name::EqualString)])),
        Shape::Hash => Some(Rule::drops(&[])),
        Shape::Align => Some(Rule::drops(&[Item::One(Name::AttributeAlign)])),
        _ => None,
    }
}

/// `= string`.
pub fn equal_string(shape: Shape) -> Option<Rule>
    ensures { by_rule result ≡ first_of equal_string shape }
{
    match shape {
        Shape::Equals => Some(Rule::drops(&[Item::Token(Terminal::Only(Shape::Str), Keep::Drops)])),
        _ => None,
    }
}

/// `n` or `( n )`.
pub fn attribute_align(shape: Shape) -> Option<Rule>
    ensures { by_rule result ≡ first_of attribute_align shape }
{
    match shape {
        Shape::Int(Digits::Power) => Some(Rule::drops(&[])),
        Shape::OpenParen => Some(Rule::drops(&[
            Item::Token(Terminal::Only(Shape::Int(Digits::Power)), Keep::Drops),
            Item::Token(Terminal::Only(Shape::CloseParen), Keep::Drops),
        ])),
        _ => None,
    }
}

/// `signext` or `zeroext`.
pub fn extension(shape: Shape) -> Option<Rule>
    ensures { by_rule result ≡ first_of extension shape }
{
    match shape {
        Shape::Ext(_) => Some(Rule::keeps(&[])),
        _ => None,
    }
}

/// `!name node`.
pub fn attachment(shape: Shape) -> Option<Rule>
    ensures { by_rule result ≡ first_of attachment shape }
{
    match shape {
        Shape::Bang | Shape::Meta => Some(Rule::drops(&[Item::One(Name::AttachedNode)])),
        _ => None,
    }
}

/// `! { .. }` or `!name [( .. )]`.
pub fn attached_node(shape: Shape) -> Option<Rule>
    ensures { by_rule result ≡ first_of attached_node shape }
{
    match shape {
        Shape::Bang => Some(Rule::drops(&[Item::One(Name::Braced)])),
        Shape::Meta => Some(Rule::drops(&[Item::May(Name::Parenthesized)])),
        _ => None,
    }
}

/// `, !name node`.
pub fn comma_attachment(shape: Shape) -> Option<Rule>
    ensures { by_rule result ≡ first_of comma_attachment shape }
{
    match shape {
        Shape::Comma => Some(Rule::drops(&[Item::One(Name::Attachment)])),
        _ => None,
    }
}

/// `, align n attachments`, or attachments.
pub fn align_part(shape: Shape) -> Option<Rule>
    ensures { by_rule result ≡ first_of align_part shape }
{
    match shape {
        Shape::Comma => Some(Rule::drops(&[Item::One(Name::AlignOrAttachment)])),
        _ => None,
    }
}

/// `align n attachments` or `!name node attachments`.
pub fn align_or_attachment(shape: Shape) -> Option<Rule>
    ensures { by_rule result ≡ first_of align_or_attachment shape }
{
    match shape {
        Shape::Align => Some(Rule::drops(&[POWER, ATTACHMENTS])),
        Shape::Bang | Shape::Meta => Some(Rule::drops(&[
            Item::One(Name::AttachedNode),
            ATTACHMENTS,
        ])),
        _ => None,
    }
}

/// `[distinct] node`.
pub fn meta_value(shape: Shape) -> Option<Rule>
    ensures { by_rule result ≡ first_of meta_value shape }
{
    match shape {
        Shape::Distinct => Some(Rule::drops(&[Item::One(Name::MetaNode)])),
        Shape::Bang | Shape::Meta => Some(Rule::drops(&[Item::May(Name::Group)])),
        _ => None,
    }
}

/// `!name [group]`.
pub fn meta_node(shape: Shape) -> Option<Rule>
    ensures { by_rule result ≡ first_of meta_node shape }
{
    match shape {
        Shape::Bang | Shape::Meta => Some(Rule::drops(&[Item::May(Name::Group)])),
        _ => None,
    }
}

//! Top-level entities of a module.
ghost use Rattle.std.specs.Prelude.{◌≡◌};
ghost use Rattle.ir_grammar.specs.Entities.{entity, target_part, own_variable, variable_part, variable_option, external, linkage_word, declared, declared_params, more_declared, next_declared, param, param_name};
ghost use Rattle.ir_grammar.specs.Mirrors.Steps.{by_rule};
ghost use Rattle.ir_grammar.specs.Mirrors.Walk.{first_of};

use crate::grammar::{Item, Keep, Name, Terminal};
use crate::items::{ATTRIBUTES, CLOSE_PAREN, EQUALS, OPEN_PAREN};
use crate::rules::Rule;
use crate::shape::{AtName, Digits, Free, Shape};
use ir_syntax::Linkage;

/// A top-level entity.
pub fn entity(shape: Shape) -> Option<Rule>
    ensures { by_rule result ≡ first_of entity shape }
{
    match shape {
        Shape::SourceFilename => Some(Rule::drops(&[
            EQUALS,
            Item::Token(Terminal::Only(Shape::Str), Keep::Drops),
        ])),
        Shape::Target => Some(Rule::drops(&[Item::One(Name::TargetPart)])),
        Shape::Local => Some(Rule::keeps(&[
            EQUALS,
            Item::Token(Terminal::Only(Shape::TypeWord), Keep::Drops),
            Item::One(Name::TypeBody),
        ])),
        Shape::At(AtName::Plain) => Some(Rule::keeps(&[EQUALS, Item::One(Name::Variable)])),
        Shape::Declare => Some(Rule::keeps(&[
            Item::Many(Name::Attachment),
            Item::May(Name::External),
            ATTRIBUTES,
            Item::May(Name::Extension),
            ATTRIBUTES,
            Item::Token(Terminal::VoidOrScalar, Keep::Keeps),
            Item::One(Name::Declared),
        ])),
        Shape::Define => Some(Rule::keeps(&[
            Item::May(Name::LinkageWord),
            ATTRIBUTES,
            Item::May(Name::Extension),
            ATTRIBUTES,
            Item::Token(Terminal::VoidOrScalar, Keep::Keeps),
            Item::Token(Terminal::Only(Shape::At(AtName::Plain)), Keep::Keeps),
            OPEN_PAREN,
            Item::Separated(Name::Param),
            CLOSE_PAREN,
            ATTRIBUTES,
            Item::Many(Name::Attachment),
            Item::One(Name::Body),
        ])),
        Shape::AttributesWord => Some(Rule::drops(&[
            Item::Token(Terminal::AnyHash, Keep::Drops),
            EQUALS,
            Item::One(Name::Group),
        ])),
        Shape::Bang | Shape::Meta => Some(Rule::drops(&[EQUALS, Item::One(Name::MetaValue)])),
        _ => None,
    }
}

/// `datalayout = string` or `triple = string`.
pub fn target_part(shape: Shape) -> Option<Rule>
    ensures { by_rule result ≡ first_of target_part shape }
{
    match shape {
        Shape::Free(Free::Datalayout | Free::Triple) => Some(Rule::keeps(&[
            EQUALS,
            Item::Token(Terminal::Only(Shape::Str), Keep::Keeps),
        ])),
        _ => None,
    }
}

/// Behind the name of a variable: what isn't an attribute.
pub fn own_variable(shape: Shape) -> Option<Rule>
    ensures { by_rule result ≡ first_of own_variable shape }
{
    match shape {
        Shape::Linkage(Linkage::External) => Some(Rule::keeps(&[
            ATTRIBUTES,
            Item::Token(Terminal::GlobalOrConstant, Keep::Keeps),
            Item::One(Name::Type),
            Item::Many(Name::VariablePart),
        ])),
        Shape::Linkage(Linkage::Internal | Linkage::Private) => Some(Rule::keeps(&[
            ATTRIBUTES,
            Item::Token(Terminal::GlobalOrConstant, Keep::Keeps),
            Item::One(Name::Type),
            Item::One(Name::Constant),
            Item::Many(Name::VariablePart),
        ])),
        Shape::Global | Shape::ConstantWord => Some(Rule::keeps(&[
            Item::One(Name::Type),
            Item::One(Name::Constant),
            Item::Many(Name::VariablePart),
        ])),
        _ => None,
    }
}

/// `, align n` or an attachment.
pub fn variable_part(shape: Shape) -> Option<Rule>
    ensures { by_rule result ≡ first_of variable_part shape }
{
    match shape {
        Shape::Comma => Some(Rule::drops(&[Item::One(Name::VariableOption)])),
        _ => None,
    }
}

/// `align n` or `!name node`.
pub fn variable_option(shape: Shape) -> Option<Rule>
    ensures { by_rule result ≡ first_of variable_option shape }
{
    match shape {
        Shape::Align => Some(Rule::drops(&[Item::Token(
            Terminal::Only(Shape::Int(Digits::Power)),
            Keep::Keeps,
        )])),
        Shape::Bang | Shape::Meta => Some(Rule::drops(&[Item::One(Name::AttachedNode)])),
        _ => None,
    }
}

/// `external`.
pub fn external(shape: Shape) -> Option<Rule>
    ensures { by_rule result ≡ first_of external shape }
{
    match shape {
        Shape::Linkage(Linkage::External) => Some(Rule::drops(&[])),
        _ => None,
    }
}

/// `external`, `internal` or `private`.
pub fn linkage_word(shape: Shape) -> Option<Rule>
    ensures { by_rule result ≡ first_of linkage_word shape }
{
    match shape {
        Shape::Linkage(_) => Some(Rule::keeps(&[])),
        _ => None,
    }
}

/// `@name ( parameters ) attributes`; a name of debug information has any group.
pub fn declared(shape: Shape) -> Option<Rule>
    ensures { by_rule result ≡ first_of declared shape }
{
    match shape {
        Shape::At(AtName::Plain | AtName::Memory) => Some(Rule::keeps(&[
            OPEN_PAREN,
            Item::One(Name::DeclaredParams),
            ATTRIBUTES,
        ])),
        Shape::At(AtName::Debug) => Some(Rule::keeps(&[Item::One(Name::Group), ATTRIBUTES])),
        _ => None,
    }
}

/// `)`, `... )`, or a parameter and more of them.
pub fn declared_params(shape: Shape) -> Option<Rule>
    ensures { by_rule result ≡ first_of declared_params shape }
{
    match shape {
        Shape::CloseParen => Some(Rule::keeps(&[])),
        Shape::Dots => Some(Rule::keeps(&[Item::Token(
            Terminal::Only(Shape::CloseParen),
            Keep::Keeps,
        )])),
        Shape::Scalar(_) => Some(Rule::keeps(&[
            ATTRIBUTES,
            Item::May(Name::Extension),
            ATTRIBUTES,
            Item::May(Name::ParamName),
            Item::One(Name::MoreDeclared),
        ])),
        _ => None,
    }
}

/// `)`, or a comma and more parameters.
pub fn more_declared(shape: Shape) -> Option<Rule>
    ensures { by_rule result ≡ first_of more_declared shape }
{
    match shape {
        Shape::CloseParen => Some(Rule::keeps(&[])),
        Shape::Comma => Some(Rule::drops(&[Item::One(Name::NextDeclared)])),
        _ => None,
    }
}

/// `... )`, or a parameter and more of them.
pub fn next_declared(shape: Shape) -> Option<Rule>
    ensures { by_rule result ≡ first_of next_declared shape }
{
    match shape {
        Shape::Dots => Some(Rule::keeps(&[Item::Token(
            Terminal::Only(Shape::CloseParen),
            Keep::Keeps,
        )])),
        Shape::Scalar(_) => Some(Rule::keeps(&[
            ATTRIBUTES,
            Item::May(Name::Extension),
            ATTRIBUTES,
            Item::May(Name::ParamName),
            Item::One(Name::MoreDeclared),
        ])),
        _ => None,
    }
}

/// `T attributes [%name]`.
pub fn param(shape: Shape) -> Option<Rule>
    ensures { by_rule result ≡ first_of param shape }
{
    match shape {
        Shape::Scalar(_) => Some(Rule::keeps(&[
            ATTRIBUTES,
            Item::May(Name::Extension),
            ATTRIBUTES,
            Item::May(Name::ParamName),
        ])),
        _ => None,
    }
}

/// `%name`.
pub fn param_name(shape: Shape) -> Option<Rule>
    ensures { by_rule result ≡ first_of param_name shape }
{
    match shape {
        Shape::Local => Some(Rule::keeps(&[])),
        _ => None,
    }
}

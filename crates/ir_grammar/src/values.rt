//! Instructions that have a result, other than phis.
ghost use Rattle.std.specs.Prelude.{◌≡◌};
ghost use Rattle.ir_grammar.specs.Values.{arithmetic, other_value, alloca_part, alloca_option, index_part, index_or_attachment};
ghost use Rattle.ir_grammar.specs.Mirrors.Steps.{by_rule};
ghost use Rattle.ir_grammar.specs.Mirrors.Walk.{first_of};

use crate::grammar::{FlagPart, Flags, Item, Keep, Name, Terminal};
use crate::items::{A_SCALAR, ADDRESS_FLAGS, ATTACHMENTS, COMMA, OPERAND, POINTER, POWER};
use crate::rules::Rule;
use crate::shape::{Flag, Shape};
use ir_types::{BinOp, CastOp, Scalar};

/// `op flags T a, b`.
pub fn arithmetic(shape: Shape) -> Option<Rule>
    ensures { by_rule result ≡ first_of arithmetic shape }
{
    match shape {
        Shape::Bin(BinOp::Add | BinOp::Sub | BinOp::Mul | BinOp::Shl) => Some(Rule::keeps(&[
            Item::AnyOrder(Flags {
                a: Some(FlagPart {
                    flag: Flag::Nuw,
                    keep: Keep::Keeps,
                }),
                b: Some(FlagPart {
                    flag: Flag::Nsw,
                    keep: Keep::Keeps,
                }),
                c: None,
            }),
            A_SCALAR,
            OPERAND,
            COMMA,
            OPERAND,
            ATTACHMENTS,
        ])),
        Shape::Bin(BinOp::Udiv | BinOp::Sdiv | BinOp::Lshr | BinOp::Ashr) => Some(Rule::keeps(&[
            Item::AnyOrder(Flags {
                a: Some(FlagPart {
                    flag: Flag::Exact,
                    keep: Keep::Keeps,
                }),
                b: None,
                c: None,
            }),
            A_SCALAR,
            OPERAND,
            COMMA,
            OPERAND,
            ATTACHMENTS,
        ])),
        Shape::Bin(BinOp::Or) => Some(Rule::keeps(&[
            Item::AnyOrder(Flags {
                a: Some(FlagPart {
                    flag: Flag::Disjoint,
                    keep: Keep::Keeps,
                }),
                b: None,
                c: None,
            }),
            A_SCALAR,
            OPERAND,
            COMMA,
            OPERAND,
            ATTACHMENTS,
        ])),
        Shape::Bin(BinOp::Urem | BinOp::Srem | BinOp::And | BinOp::Xor) => Some(Rule::keeps(&[
            A_SCALAR,
            OPERAND,
            COMMA,
            OPERAND,
            ATTACHMENTS,
        ])),
        _ => None,
    }
}

/// An instruction that has a result, other than arithmetic.
pub fn other_value(shape: Shape) -> Option<Rule>
    ensures { by_rule result ≡ first_of other_value shape }
{
    match shape {
        Shape::Icmp => Some(Rule::keeps(&[
            Item::Token(Terminal::AnyPred, Keep::Keeps),
            A_SCALAR,
            OPERAND,
            COMMA,
            OPERAND,
            ATTACHMENTS,
        ])),
        Shape::Select => Some(Rule::keeps(&[
            Item::Token(Terminal::Only(Shape::Scalar(Scalar::I1)), Keep::Drops),
            OPERAND,
            COMMA,
            Item::One(Name::SelectArms),
            ATTACHMENTS,
        ])),
        Shape::Cast(CastOp::Zext) => Some(Rule::keeps(&[
            Item::AnyOrder(Flags {
                a: Some(FlagPart {
                    flag: Flag::Nneg,
                    keep: Keep::Keeps,
                }),
                b: None,
                c: None,
            }),
            A_SCALAR,
            OPERAND,
            Item::Token(Terminal::Only(Shape::To), Keep::Drops),
            A_SCALAR,
            ATTACHMENTS,
        ])),
        Shape::Cast(CastOp::Sext | CastOp::Trunc) => Some(Rule::keeps(&[
            A_SCALAR,
            OPERAND,
            Item::Token(Terminal::Only(Shape::To), Keep::Drops),
            A_SCALAR,
            ATTACHMENTS,
        ])),
        Shape::Alloca => Some(Rule::keeps(&[Item::One(Name::Type), Item::May(Name::AllocaPart)])),
        Shape::Load => Some(Rule::keeps(&[
            A_SCALAR,
            COMMA,
            POINTER,
            OPERAND,
            Item::May(Name::AlignPart),
        ])),
        Shape::Gep => Some(Rule::keeps(&[
            ADDRESS_FLAGS,
            Item::One(Name::Type),
            COMMA,
            POINTER,
            OPERAND,
            Item::May(Name::IndexPart),
        ])),
        _ => None,
    }
}

/// `,` and a count, an alignment or an attachment.
pub fn alloca_part(shape: Shape) -> Option<Rule>
    ensures { by_rule result ≡ first_of alloca_part shape }
{
    match shape {
        Shape::Comma => Some(Rule::drops(&[Item::One(Name::AllocaOption)])),
        _ => None,
    }
}

/// `iN n [, align n] attachments`, `align n attachments` or `!name node attachments`.
pub fn alloca_option(shape: Shape) -> Option<Rule>
    ensures { by_rule result ≡ first_of alloca_option shape }
{
    match shape {
        Shape::Scalar(Scalar::I1 | Scalar::I8 | Scalar::I16 | Scalar::I32 | Scalar::I64) => Some(
            Rule::keeps(&[Item::One(Name::Number), Item::May(Name::AlignPart)]),
        ),
        Shape::Align => Some(Rule::drops(&[POWER, ATTACHMENTS])),
        Shape::Bang | Shape::Meta => Some(Rule::drops(&[
            Item::One(Name::AttachedNode),
            ATTACHMENTS,
        ])),
        _ => None,
    }
}

/// `,` and an index or an attachment.
pub fn index_part(shape: Shape) -> Option<Rule>
    ensures { by_rule result ≡ first_of index_part shape }
{
    match shape {
        Shape::Comma => Some(Rule::drops(&[Item::One(Name::IndexOrAttachment)])),
        _ => None,
    }
}

/// `iN i` and more of them, or `!name node attachments`.
pub fn index_or_attachment(shape: Shape) -> Option<Rule>
    ensures { by_rule result ≡ first_of index_or_attachment shape }
{
    match shape {
        Shape::Scalar(Scalar::I1 | Scalar::I8 | Scalar::I16 | Scalar::I32 | Scalar::I64) => Some(
            Rule::keeps(&[OPERAND, Item::May(Name::IndexPart)]),
        ),
        Shape::Bang | Shape::Meta => Some(Rule::drops(&[
            Item::One(Name::AttachedNode),
            ATTACHMENTS,
        ])),
        _ => None,
    }
}

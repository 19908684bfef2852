//! Which tokens a terminal stands for.
ghost use Rattle.std.specs.Prelude.{◌≡◌};
ghost use Rattle.ir_grammar.specs.Terminals.{at_code, digits_code, value_code, flag_code, pred_code, scalar_code, linkage_code, ext_code, bin_code, cast_code, free_code, kind_code, inner_code, is_same, is_at, is_called_at, is_declared_at, is_hash, is_meta, is_int, is_count, is_scalar, is_integer, is_void_or_scalar, is_linkage, is_ext, is_value, is_pred, is_global_or_constant, is_free, is_no_parenthesis, is_no_brace, stands_for};

use crate::grammar::Terminal;
use crate::shape::{AtName, Digits, Flag, Free, Shape, Value};
use ir_syntax::Linkage;
use ir_types::{BinOp, CastOp, Ext, Pred, Scalar};

fn at_code(one: AtName) -> u8
    ensures { result ≡ at_code one }
{
    match one {
        AtName::Plain => 0,
        AtName::Memory => 1,
        AtName::Debug => 2,
        AtName::Other => 3,
    }
}

fn digits_code(one: Digits) -> u8
    ensures { result ≡ digits_code one }
{
    match one {
        Digits::Power => 0,
        Digits::Count => 1,
        Digits::Other => 2,
    }
}

fn value_code(one: Value) -> u8
    ensures { result ≡ value_code one }
{
    match one {
        Value::True => 0,
        Value::False => 1,
        Value::Null => 2,
        Value::Undef => 3,
        Value::Poison => 4,
        Value::Zero => 5,
    }
}

fn flag_code(one: Flag) -> u8
    ensures { result ≡ flag_code one }
{
    match one {
        Flag::Nuw => 0,
        Flag::Nsw => 1,
        Flag::Exact => 2,
        Flag::Disjoint => 3,
        Flag::Nneg => 4,
        Flag::Inbounds => 5,
        Flag::Nusw => 6,
    }
}

fn pred_code(one: Pred) -> u8
    ensures { result ≡ pred_code one }
{
    match one {
        Pred::Eq => 0,
        Pred::Ne => 1,
        Pred::Ugt => 2,
        Pred::Uge => 3,
        Pred::Ult => 4,
        Pred::Ule => 5,
        Pred::Sgt => 6,
        Pred::Sge => 7,
        Pred::Slt => 8,
        Pred::Sle => 9,
    }
}

fn scalar_code(one: Scalar) -> u8
    ensures { result ≡ scalar_code one }
{
    match one {
        Scalar::I1 => 0,
        Scalar::I8 => 1,
        Scalar::I16 => 2,
        Scalar::I32 => 3,
        Scalar::I64 => 4,
        Scalar::Ptr => 5,
    }
}

fn linkage_code(one: Linkage) -> u8
    ensures { result ≡ linkage_code one }
{
    match one {
        Linkage::External => 0,
        Linkage::Internal => 1,
        Linkage::Private => 2,
    }
}

fn ext_code(one: Ext) -> u8
    ensures { result ≡ ext_code one }
{
    match one {
        Ext::Plain => 0,
        Ext::Signed => 1,
        Ext::Unsigned => 2,
    }
}

fn bin_code(one: BinOp) -> u8
    ensures { result ≡ bin_code one }
{
    match one {
        BinOp::Add => 0,
        BinOp::Sub => 1,
        BinOp::Mul => 2,
        BinOp::Udiv => 3,
        BinOp::Sdiv => 4,
        BinOp::Urem => 5,
        BinOp::Srem => 6,
        BinOp::Shl => 7,
        BinOp::Lshr => 8,
        BinOp::Ashr => 9,
        BinOp::And => 10,
        BinOp::Or => 11,
        BinOp::Xor => 12,
    }
}

fn cast_code(one: CastOp) -> u8
    ensures { result ≡ cast_code one }
{
    match one {
        CastOp::Zext => 0,
        CastOp::Sext => 1,
        CastOp::Trunc => 2,
    }
}

fn free_code(word: Free) -> u8
    ensures { result ≡ free_code word }
{
    match word {
        Free::Flag(name) => flag_code(name),
        Free::Pred(name) => 10 + pred_code(name),
        Free::Datalayout => 30,
        Free::Triple => 31,
        Free::Other => 32,
    }
}

/// What kind of token it is.
fn kind_code(shape: Shape) -> u8
    ensures { result ≡ kind_code shape }
{
    match shape {
        Shape::At(_) => 0,
        Shape::Local => 1,
        Shape::Hash => 2,
        Shape::Record => 3,
        Shape::Bang => 4,
        Shape::Meta => 5,
        Shape::Str => 6,
        Shape::CStr => 7,
        Shape::Label => 8,
        Shape::Int(_) => 9,
        Shape::Equals => 10,
        Shape::Comma => 11,
        Shape::OpenParen => 12,
        Shape::CloseParen => 13,
        Shape::OpenSquare => 14,
        Shape::CloseSquare => 15,
        Shape::OpenBrace => 16,
        Shape::CloseBrace => 17,
        Shape::OtherMark => 18,
        Shape::Scalar(_) => 19,
        Shape::Void => 20,
        Shape::Linkage(_) => 21,
        Shape::Ext(_) => 22,
        Shape::Value(_) => 23,
        Shape::Bin(_) => 24,
        Shape::Cast(_) => 25,
        Shape::Icmp => 26,
        Shape::Select => 27,
        Shape::Phi => 28,
        Shape::Alloca => 29,
        Shape::Load => 30,
        Shape::Store => 31,
        Shape::Gep => 32,
        Shape::Call => 33,
        Shape::Ret => 34,
        Shape::Br => 35,
        Shape::Switch => 36,
        Shape::Unreachable => 37,
        Shape::Tail => 38,
        Shape::To => 39,
        Shape::LabelWord => 40,
        Shape::X => 41,
        Shape::Dots => 42,
        Shape::Global => 43,
        Shape::ConstantWord => 44,
        Shape::Declare => 45,
        Shape::Define => 46,
        Shape::TypeWord => 47,
        Shape::Opaque => 48,
        Shape::Target => 49,
        Shape::SourceFilename => 50,
        Shape::AttributesWord => 51,
        Shape::Distinct => 52,
        Shape::Align => 53,
        Shape::Free(_) => 54,
        Shape::Reserved => 55,
        Shape::End => 56,
        Shape::Result => 57,
        Shape::Address => 58,
        Shape::Returned(_) => 59,
    }
}

/// Which of its kind it is.
fn inner_code(shape: Shape) -> u8
    ensures { result ≡ inner_code shape }
{
    match shape {
        Shape::At(name) => at_code(name),
        Shape::Int(number) => digits_code(number),
        Shape::Scalar(ty) => scalar_code(ty),
        Shape::Linkage(linkage) => linkage_code(linkage),
        Shape::Ext(ext) => ext_code(ext),
        Shape::Value(value) => value_code(value),
        Shape::Bin(op) => bin_code(op),
        Shape::Cast(op) => cast_code(op),
        Shape::Free(word) => free_code(word),
        Shape::Returned(ty) => scalar_code(ty),
        _ => 0,
    }
}

/// Whether both are the same shape.
pub fn is_same(one: Shape, other: Shape) -> bool
    ensures { result ≡ is_same one other }
{
    kind_code(one) == kind_code(other) && inner_code(one) == inner_code(other)
}

fn is_at(shape: Shape) -> bool
    ensures { result ≡ is_at shape }
{
    match shape {
        Shape::At(_) => true,
        _ => false,
    }
}

fn is_called_at(shape: Shape) -> bool
    ensures { result ≡ is_called_at shape }
{
    match shape {
        Shape::At(AtName::Plain | AtName::Memory | AtName::Other) => true,
        _ => false,
    }
}

fn is_declared_at(shape: Shape) -> bool
    ensures { result ≡ is_declared_at shape }
{
    match shape {
        Shape::At(AtName::Plain | AtName::Memory) => true,
        _ => false,
    }
}

fn is_hash(shape: Shape) -> bool
    ensures { result ≡ is_hash shape }
{
    match shape {
        Shape::Hash | Shape::Record => true,
        _ => false,
    }
}

fn is_meta(shape: Shape) -> bool
    ensures { result ≡ is_meta shape }
{
    match shape {
        Shape::Bang | Shape::Meta => true,
        _ => false,
    }
}

fn is_int(shape: Shape) -> bool
    ensures { result ≡ is_int shape }
{
    match shape {
        Shape::Int(_) => true,
        _ => false,
    }
}

fn is_count(shape: Shape) -> bool
    ensures { result ≡ is_count shape }
{
    match shape {
        Shape::Int(Digits::Power | Digits::Count) => true,
        _ => false,
    }
}

fn is_scalar(shape: Shape) -> bool
    ensures { result ≡ is_scalar shape }
{
    match shape {
        Shape::Scalar(_) => true,
        _ => false,
    }
}

fn is_integer(shape: Shape) -> bool
    ensures { result ≡ is_integer shape }
{
    match shape {
        Shape::Scalar(Scalar::I1 | Scalar::I8 | Scalar::I16 | Scalar::I32 | Scalar::I64) => true,
        _ => false,
    }
}

fn is_void_or_scalar(shape: Shape) -> bool
    ensures { result ≡ is_void_or_scalar shape }
{
    match shape {
        Shape::Void | Shape::Scalar(_) => true,
        _ => false,
    }
}

fn is_linkage(shape: Shape) -> bool
    ensures { result ≡ is_linkage shape }
{
    match shape {
        Shape::Linkage(_) => true,
        _ => false,
    }
}

fn is_ext(shape: Shape) -> bool
    ensures { result ≡ is_ext shape }
{
    match shape {
        Shape::Ext(_) => true,
        _ => false,
    }
}

fn is_value(shape: Shape) -> bool
    ensures { result ≡ is_value shape }
{
    match shape {
        Shape::Value(_) => true,
        _ => false,
    }
}

fn is_pred(shape: Shape) -> bool
    ensures { result ≡ is_pred shape }
{
    match shape {
        Shape::Free(Free::Pred(_)) => true,
        _ => false,
    }
}

fn is_global_or_constant(shape: Shape) -> bool
    ensures { result ≡ is_global_or_constant shape }
{
    match shape {
        Shape::Global | Shape::ConstantWord => true,
        _ => false,
    }
}

fn is_free(shape: Shape) -> bool
    ensures { result ≡ is_free shape }
{
    match shape {
        Shape::Free(_) => true,
        _ => false,
    }
}

fn is_no_parenthesis(shape: Shape) -> bool
    ensures { result ≡ is_no_parenthesis shape }
{
    match shape {
        Shape::OpenParen | Shape::CloseParen => false,
        _ => true,
    }
}

fn is_no_brace(shape: Shape) -> bool
    ensures { result ≡ is_no_brace shape }
{
    match shape {
        Shape::OpenBrace | Shape::CloseBrace => false,
        _ => true,
    }
}

/// Whether the terminal stands for a token of the shape.
pub fn stands_for(terminal: Terminal, shape: Shape) -> bool
    ensures { result ≡ stands_for terminal shape }
{
    match terminal {
        Terminal::Only(other) => is_same(other, shape),
        Terminal::AnyAt => is_at(shape),
        Terminal::CalledAt => is_called_at(shape),
        Terminal::DeclaredAt => is_declared_at(shape),
        Terminal::AnyHash => is_hash(shape),
        Terminal::AnyMeta => is_meta(shape),
        Terminal::AnyInt => is_int(shape),
        Terminal::CountInt => is_count(shape),
        Terminal::AnyScalar => is_scalar(shape),
        Terminal::IntegerScalar => is_integer(shape),
        Terminal::VoidOrScalar => is_void_or_scalar(shape),
        Terminal::AnyLinkage => is_linkage(shape),
        Terminal::AnyExt => is_ext(shape),
        Terminal::AnyValue => is_value(shape),
        Terminal::AnyPred => is_pred(shape),
        Terminal::GlobalOrConstant => is_global_or_constant(shape),
        Terminal::FreeWord => is_free(shape),
        Terminal::NoParenthesis => is_no_parenthesis(shape),
        Terminal::NoBrace => is_no_brace(shape),
    }
}

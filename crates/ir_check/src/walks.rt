//! Walks into a type.
ghost use Rattle.std.specs.Prelude.{◌≡◌, ◌↔◌, IsTrue};
ghost use Rattle.std.specs.Option.{option_copied};
ghost use Rattle.ir_syntax.specs.Typed.{number_of, Enters, IsWalk};
ghost use Rattle.ir_check.specs.Walks.{field_by, part};

use crate::operands::same_scalar;
use ir_syntax::{Const, Operand};
use ir_types::{Scalar, Ty};

/// The number that an index is, where it is one.
fn number_of(operand: &Operand) -> Option<usize>
    ensures { result ≡ number_of operand.now }
{
    match operand {
        Operand::Const(Const::Int(number)) => Some(*number as usize),
        _ => None,
    }
}

/// The field of a struct that an index enters: a number of i32 names it.
fn field<'a>(fields: &'a [Ty], index: &(Scalar, Operand)) -> Option<&'a Ty>
    ensures { option_copied result ≡ field_by fields.now index.now.0 index.now.1 }
{
    if !same_scalar(index.0, Scalar::I32) {
        return None;
    }
    match number_of(&index.1) {
        Some(at) => fields.get(at),
        None => None,
    }
}

/// The part of the type that an index enters.
fn entered<'a>(ty: &'a Ty, index: &(Scalar, Operand)) -> Option<&'a Ty>
    ensures { option_copied result ≡ part ty.now index.now }
{
    match ty {
        Ty::One(_) => None,
        Ty::Array(_, element) => Some(element.get()),
        Ty::Struct(fields) => field(fields.as_slice(), index),
    }
}

/// Whether each index enters a part of what the one before it entered.
fn enters(ty: &Ty, indices: &[(Scalar, Operand)]) -> bool
    ensures { IsTrue result ↔ Enters ty.now indices.now }
{
    let mut part = ty;
    for index in indices {
        match entered(part, index) {
            Some(inner) => part = inner,
            None => return false,
        }
    }
    true
}

/// Whether the indices walk into the type. The first index steps over whole values of it.
pub fn is_walk(ty: &Ty, indices: &[(Scalar, Operand)]) -> bool
    ensures { IsTrue result ↔ IsWalk ty.now indices.now }
{
    match indices {
        [] => true,
        [_, more @ ..] => enters(ty, more),
    }
}

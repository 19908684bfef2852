//! Addresses that are moved by indices.
ghost use Rattle.std.specs.Prelude.{◌≡◌, ◌+ℤ◌, ◌<◌, IsSome, Some};
ghost use Rattle.ir_types.specs.Walk.{part, place, stride};
ghost use Rattle.ir_types.specs.Layout.{offset_of, size};
ghost use Rattle.ir_syntax.specs.IndexWalks.{index_of};
ghost use Rattle.ir_syntax.specs.Typed.{IsNarrow};
ghost use Rattle.block_memory.specs.Answers.{Gives, IsMeant, and_then, or_stuck};
ghost use Rattle.block_memory.specs.Comparisons as comparisons;
ghost use Rattle.ir_steps.specs.Pointers as pointers;
ghost use Rattle.ir_steps.specs.Reading as reading;
ghost use Rattle.ir_meaning.specs.Models.{frame_of};
ghost use Rattle.ir_meaning.specs.Mirrors.Walking as walking;

use crate::frame::Frame;
use crate::operands::{name_again, value};
use block_memory::{Memory, Name, Val};
use ir_syntax::{Const, Operand, Program, Sym};
use ir_types::{Scalar, Stride, Ty, field_offset, size_of};

/// Whether an offset is from 0 to the size.
fn is_upto(offset: i64, size: u64) -> bool
    ensures { result ≡ comparisons.is_upto offset size }
{
    offset >= 0 && offset.cast_unsigned() <= size
}

fn at_offset(inbounds: bool, of: &Name<Sym>, from: i64, to: i64, size: u64) -> Val<Sym>
    ensures { result ≡ pointers.at_offset inbounds of.now from to size }
{
    if inbounds && (!is_upto(from, size) || !is_upto(to, size)) {
        Val::Poison
    } else {
        Val::At(name_again(of), to)
    }
}

/// The address so many bytes further.
#[tactic(auto, using(crate::proofs::Wrapped::wrapped_is, crate::proofs::Walked::is_named))]
fn moved_by(memory: &Memory, inbounds: bool, base: &Val<Sym>, by: i64) -> Val<Sym>
    requires { IsMeant (pointers.moved_by memory.now inbounds base.now by) }
    ensures { pointers.moved_by memory.now inbounds base.now by ≡ Gives result }
{
    match base {
        Val::Num(_) => unreachable!(),
        Val::Null => {
            if Scalar::I64.from_signed(by) == 0 {
                Val::Null
            } else {
                Val::Poison
            }
        }
        Val::At(of, from) => {
            let size = memory.extent(of).size;
            at_offset(inbounds, of, *from, from.wrapping_add(by), size)
        }
        Val::Poison => Val::Poison,
    }
}

/// What one index moves an address by, in bytes, as a signed 64-bit number that wraps. Nothing is known of poison.
#[tactic(auto, using(crate::proofs::Wrapped::wrapped_is))]
fn moves(ty: Scalar, value: &Val<Sym>, stride: Stride) -> Option<i64>
    requires { IsMeant (pointers.moves ty value.now stride) }
    ensures { and_then (λ z. Gives (walking.wrapped_option z)) (pointers.moves ty value.now stride) ≡ Gives result }
{
    match value {
        Val::Num(n) => match stride {
            Stride::Each(size) => Some(ty.signed(*n).wrapping_mul(i64::from(size))),
            Stride::Field(offset) => Some(i64::from(offset)),
        },
        Val::Null => unreachable!(),
        Val::At(_, _) => unreachable!(),
        Val::Poison => None,
    }
}

/// The place of the field that an index names.
fn field_of(index: &(Scalar, Operand)) -> usize
    requires { IsSome (place (index_of index.now)) }
    ensures { place (index_of index.now) ≡ Some result }
{
    match &index.1 {
        Operand::Param(_) => unreachable!(),
        Operand::Reg(_) => unreachable!(),
        Operand::Const(constant) => match constant {
            Const::Int(n) => index.0.signed(*n) as usize,
            Const::Null => unreachable!(),
            Const::Addr(_, _) => unreachable!(),
            Const::Undef => unreachable!(),
            Const::Poison => unreachable!(),
            Const::Zero => unreachable!(),
            Const::Text(_) => unreachable!(),
            Const::Many(_) => unreachable!(),
        },
    }
}

/// How many bytes a type takes.
fn size_in(ty: &Ty) -> u32
    requires { IsNarrow ty.now }
    ensures { result ≡ size ty.now }
{
    match size_of(ty) {
        Ok(size) => size,
        Err(_) => unreachable!(),
    }
}

/// The offset of a field of a struct.
fn offset_in(ty: &Ty, field: usize) -> u32
    requires narrow { IsNarrow ty.now }
    requires there { IsSome (offset_of ty.now field) }
    ensures { offset_of ty.now field ≡ Some result }
{
    match field_offset(ty, field) {
        Ok(Some(offset)) => offset,
        Ok(None) => unreachable!(),
        Err(_) => unreachable!(),
    }
}

/// What an index within a type adds to an offset.
fn stride_at(ty: &Ty, index: &(Scalar, Operand)) -> Stride
    requires narrow { IsNarrow ty.now }
    requires there { IsSome (stride ty.now (index_of index.now)) }
    ensures { stride ty.now (index_of index.now) ≡ Some result }
{
    match ty {
        Ty::One(_) => unreachable!(),
        Ty::Array(_, element) => Stride::Each(size_in(element.get())),
        Ty::Struct(_) => Stride::Field(offset_in(ty, field_of(index))),
    }
}

/// The part of a type that an index enters.
fn part_of<'a>(ty: &'a Ty, index: &(Scalar, Operand)) -> &'a Ty
    requires { IsSome (part ty.now (index_of index.now)) }
    ensures { part ty.now (index_of index.now) ≡ Some result.now }
{
    match ty {
        Ty::One(_) => unreachable!(),
        Ty::Array(_, element) => element.get(),
        Ty::Struct(fields) => match fields.get(field_of(index)) {
            Some(field) => field,
            None => unreachable!(),
        },
    }
}

/// What one index within a type moves an address by.
fn moved_at(p: &Program, frame: &Frame, ty: &Ty, index: &(Scalar, Operand)) -> Option<i64>
    requires narrow { IsNarrow ty.now }
    requires meant { IsMeant (walking.moved_at p.now (frame_of p.now frame.now) ty.now index.now) }
    ensures { and_then (λ z. Gives (walking.wrapped_option z)) (walking.moved_at p.now (frame_of p.now frame.now) ty.now index.now) ≡ Gives result }
{
    let x = value(p, frame, &index.1);
    moves(index.0, &x, stride_at(ty, index))
}

fn sum_of(a: Option<i64>, b: Option<i64>) -> Option<i64>
    ensures { result ≡ walking.sum_of a b }
{
    match a {
        None => None,
        Some(a) => match b {
            None => None,
            Some(b) => Some(a.wrapping_add(b)),
        },
    }
}

/// What is known so far, and what indices move an address by beyond it, each within the part that the one before it entered.
#[tactic(auto, using(crate::proofs::Wrapped::sum_shift, crate::proofs::Strided::part_is_narrow))]
fn moved_within(
    p: &Program,
    frame: &Frame,
    ty: &Ty,
    indices: &[(Scalar, Operand)],
    so_far: Option<i64>,
) -> Option<i64>
    requires narrow { IsNarrow ty.now }
    requires meant { IsMeant (walking.moved_within p.now (frame_of p.now frame.now) ty.now indices.now) }
    ensures { and_then (λ rest. Gives (walking.sum_of so_far rest)) (walking.moved_within p.now (frame_of p.now frame.now) ty.now indices.now) ≡ Gives result }
{
    let mut part = ty;
    let mut by = so_far;
    for index in indices {
        by = sum_of(by, moved_at(p, frame, part, index));
        part = part_of(part, index);
    }
    sum_of(by, Some(0))
}

/// What all indices move an address by: the first steps over whole values of the type.
fn moved_along(p: &Program, frame: &Frame, ty: &Ty, indices: &[(Scalar, Operand)]) -> Option<i64>
    requires narrow { IsNarrow ty.now }
    requires meant { IsMeant (walking.moved_along p.now (frame_of p.now frame.now) ty.now indices.now) }
    ensures { and_then (λ z. Gives (walking.wrapped_option z)) (walking.moved_along p.now (frame_of p.now frame.now) ty.now indices.now) ≡ Gives result }
{
    match indices {
        [] => Some(0),
        [index, more @ ..] => {
            let x = value(p, frame, &index.1);
            let one = moves(index.0, &x, Stride::Each(size_in(ty)));
            moved_within(p, frame, ty, more, one)
        }
    }
}

/// The address that indices lead to from a base. A base or an index that is poison makes poison.
pub fn gep(
    p: &Program,
    frame: &Frame,
    memory: &Memory,
    inbounds: bool,
    ty: &Ty,
    indices: &[(Scalar, Operand)],
    base: &Val<Sym>,
) -> Val<Sym>
    requires narrow { IsNarrow ty.now }
    requires meant { IsMeant (reading.gep p.now (frame_of p.now frame.now) memory.now inbounds ty.now indices.now base.now) }
    ensures { reading.gep p.now (frame_of p.now frame.now) memory.now inbounds ty.now indices.now base.now ≡ Gives result }
{
    match moved_along(p, frame, ty, indices) {
        Some(by) => moved_by(memory, inbounds, base, by),
        None => Val::Poison,
    }
}

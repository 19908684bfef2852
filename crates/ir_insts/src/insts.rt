//! Instructions that aren't calls, behind their words.
ghost use Rattle.std.specs.Prelude.{◌≡◌, ◌≤◌, length, IfOk, IfSome};
ghost use Rattle.ir_grammar.specs.Tokens.{seen};
ghost use Rattle.ir_scope.specs.Runs.{runs};
ghost use Rattle.ir_operands.specs.Mirrors.Naming.{naming};
ghost use Rattle.ir_operands.specs.Operands.{operand_at, typed};
ghost use Rattle.ir_insts.specs.Insts.{is_integer, bin_at, icmp_at, select_at, cast_at, count_at, alloca_at, load_at, store_at, gep_at};
ghost use Rattle.ir_insts.specs.Mirrors.Shaped.{typed_count_at, typed_base_at, typed_store_at, indexed_at};

use crate::allowed::{allows, allows_nneg, begins_integer};
use ir_grammar::{Free, Lexeme, Shape};
use ir_operands::{
    Names, after, align, flags, inbounds, nneg, operand, scalar, typed_operand, typed_pair,
    typed_place,
};
use ir_scope::{read_number, read_type};
use ir_syntax::{Inst, Operand};
use ir_types::{BinOp, CastOp, List, OutOfMemory, Scalar, Ty};
use std::alloc::Global;

/// `flags T a, b` behind the word of an operation.
pub fn bin(
    alloc: Global,
    names: &Names,
    op: BinOp,
    kept: &[Lexeme],
) -> Result<Option<(Inst, usize)>, OutOfMemory>
    ensures exact { IfOk result (λ found. found ≡ bin_at (naming names.now) op (seen kept.now)) }
    ensures within { IfOk result (λ found. IfSome found (λ f. f.1 ≤ length kept.now)) }
{
    let (flags, skipped) = flags(kept);
    if !allows(op, flags) {
        return Ok(None);
    }
    match typed_pair(alloc, names, after(kept, skipped))? {
        Some(((ty, (a, b)), count)) => {
            let bin = Inst::Bin {
                op,
                flags,
                ty,
                a,
                b,
            };
            Ok(Some((bin, skipped + count)))
        }
        None => Ok(None),
    }
}

/// `pred T a, b` behind `icmp`.
pub fn icmp(
    alloc: Global,
    names: &Names,
    kept: &[Lexeme],
) -> Result<Option<(Inst, usize)>, OutOfMemory>
    ensures exact { IfOk result (λ found. found ≡ icmp_at (naming names.now) (seen kept.now)) }
    ensures within { IfOk result (λ found. IfSome found (λ f. f.1 ≤ length kept.now)) }
{
    let (pred, rest) = match kept {
        [first, rest @ ..] => match first.shape {
            Shape::Free(Free::Pred(pred)) => (pred, rest),
            _ => return Ok(None),
        },
        [] => return Ok(None),
    };
    match typed_pair(alloc, names, rest)? {
        Some(((ty, (a, b)), count)) => Ok(Some((Inst::Icmp { pred, ty, a, b }, 1 + count))),
        None => Ok(None),
    }
}

/// `c, T a, T b` behind `select i1`.
pub fn select(
    alloc: Global,
    names: &Names,
    kept: &[Lexeme],
) -> Result<Option<(Inst, usize)>, OutOfMemory>
    ensures exact { IfOk result (λ found. found ≡ select_at (naming names.now) (seen kept.now)) }
    ensures within { IfOk result (λ found. IfSome found (λ f. f.1 ≤ length kept.now)) }
{
    let (cond, count) = match operand(alloc, names, Scalar::I1, kept)? {
        Some(found) => found,
        None => return Ok(None),
    };
    match typed_pair(alloc, names, after(kept, count))? {
        Some(((ty, (a, b)), more)) => Ok(Some((Inst::Select { ty, cond, a, b }, count + more))),
        None => Ok(None),
    }
}

/// `[nneg] T a to U` behind the word of a cast.
pub fn cast(
    alloc: Global,
    names: &Names,
    op: CastOp,
    kept: &[Lexeme],
) -> Result<Option<(Inst, usize)>, OutOfMemory>
    ensures exact { IfOk result (λ found. found ≡ cast_at (naming names.now) op (seen kept.now)) }
    ensures within { IfOk result (λ found. IfSome found (λ f. f.1 ≤ length kept.now)) }
{
    let (nneg, skipped) = nneg(kept);
    if !allows_nneg(op, nneg) {
        return Ok(None);
    }
    let rest = after(kept, skipped);
    let ((from, a), count) = match typed_operand(alloc, names, rest)? {
        Some(found) => found,
        None => return Ok(None),
    };
    match scalar(after(rest, count)) {
        Some((to, more)) => {
            let cast = Inst::Cast {
                op,
                nneg,
                from,
                to,
                a,
            };
            Ok(Some((cast, skipped + (count + more))))
        }
        None => Ok(None),
    }
}

/// The number of a scalar in front, or 1 where no scalar stands there.
fn count(kept: &[Lexeme]) -> Option<(u64, usize)>
    ensures exact { result ≡ count_at (seen kept.now) }
    ensures within { IfSome result (λ f. f.1 ≤ length kept.now) }
{
    let (first, rest) = match kept {
        [first, rest @ ..] => (first, rest),
        [] => return Some((1, 0)),
    };
    match first.shape {
        Shape::Scalar(ty) => match rest {
            [lexeme, ..] => match read_number(ty, lexeme) {
                Some(number) => Some((number, 2)),
                None => None,
            },
            [] => None,
        },
        _ => Some((1, 0)),
    }
}

/// `type [, iN count]`.
#[tactic(auto, unfolding(ir_operands::specs::Mirrors::Naming::naming))]
fn typed_count(
    alloc: Global,
    names: &Names,
    kept: &[Lexeme],
) -> Result<Option<((Ty, u64), usize)>, OutOfMemory>
    ensures exact { IfOk result (λ found. found ≡ typed_count_at (naming names.now) (seen kept.now)) }
    ensures within { IfOk result (λ found. IfSome found (λ f. f.1 ≤ length kept.now)) }
{
    let (ty, taken) = match read_type(alloc, names.scope, kept)? {
        Some(found) => found,
        None => return Ok(None),
    };
    match count(after(kept, taken)) {
        Some((count, more)) => Ok(Some(((ty, count), taken + more))),
        None => Ok(None),
    }
}

/// `type [, iN count] [, align n]` behind `alloca`.
pub fn alloca(
    alloc: Global,
    names: &Names,
    kept: &[Lexeme],
) -> Result<Option<(Inst, usize)>, OutOfMemory>
    ensures exact { IfOk result (λ found. found ≡ alloca_at (naming names.now) (seen kept.now)) }
    ensures within { IfOk result (λ found. IfSome found (λ f. f.1 ≤ length kept.now)) }
{
    match typed_count(alloc, names, kept)? {
        Some(((ty, count), taken)) => {
            let (align, more) = align(after(kept, taken));
            Ok(Some((Inst::Alloca { ty, count, align }, taken + more)))
        }
        None => Ok(None),
    }
}

/// `T, ptr p [, align n]` behind `load`.
pub fn load(
    alloc: Global,
    names: &Names,
    kept: &[Lexeme],
) -> Result<Option<(Inst, usize)>, OutOfMemory>
    ensures exact { IfOk result (λ found. found ≡ load_at (naming names.now) (seen kept.now)) }
    ensures within { IfOk result (λ found. IfSome found (λ f. f.1 ≤ length kept.now)) }
{
    match typed_place(alloc, names, kept)? {
        Some(((ty, at), taken)) => {
            let (align, more) = align(after(kept, taken));
            Ok(Some((Inst::Load { ty, at, align }, taken + more)))
        }
        None => Ok(None),
    }
}

/// `T v, ptr p`.
fn stored(
    alloc: Global,
    names: &Names,
    kept: &[Lexeme],
) -> Result<Option<(((Scalar, Operand), Operand), usize)>, OutOfMemory>
    ensures exact { IfOk result (λ found. found ≡ typed_store_at (naming names.now) (seen kept.now)) }
    ensures within { IfOk result (λ found. IfSome found (λ f. f.1 ≤ length kept.now)) }
{
    let (value, count) = match typed_operand(alloc, names, kept)? {
        Some(found) => found,
        None => return Ok(None),
    };
    match operand(alloc, names, Scalar::Ptr, after(kept, count))? {
        Some((at, more)) => Ok(Some(((value, at), count + more))),
        None => Ok(None),
    }
}

/// `T v, ptr p [, align n]` behind `store`.
pub fn store(
    alloc: Global,
    names: &Names,
    kept: &[Lexeme],
) -> Result<Option<(Inst, usize)>, OutOfMemory>
    ensures exact { IfOk result (λ found. found ≡ store_at (naming names.now) (seen kept.now)) }
    ensures within { IfOk result (λ found. IfSome found (λ f. f.1 ≤ length kept.now)) }
{
    match stored(alloc, names, kept)? {
        Some((((ty, value), at), taken)) => {
            let (align, more) = align(after(kept, taken));
            let store = Inst::Store {
                ty,
                value,
                at,
                align,
            };
            Ok(Some((store, taken + more)))
        }
        None => Ok(None),
    }
}

/// `type, ptr p`.
#[tactic(auto, unfolding(ir_operands::specs::Mirrors::Naming::naming))]
fn typed_base(
    alloc: Global,
    names: &Names,
    kept: &[Lexeme],
) -> Result<Option<((Ty, Operand), usize)>, OutOfMemory>
    ensures exact { IfOk result (λ found. found ≡ typed_base_at (naming names.now) (seen kept.now)) }
    ensures within { IfOk result (λ found. IfSome found (λ f. f.1 ≤ length kept.now)) }
{
    let (ty, count) = match read_type(alloc, names.scope, kept)? {
        Some(found) => found,
        None => return Ok(None),
    };
    match operand(alloc, names, Scalar::Ptr, after(kept, count))? {
        Some((base, more)) => Ok(Some(((ty, base), count + more))),
        None => Ok(None),
    }
}

/// The indices up to the first lexeme that is no integer type.
fn indices(
    alloc: Global,
    names: &Names,
    kept: &[Lexeme],
) -> Result<Option<(List<(Scalar, Operand)>, usize)>, OutOfMemory>
    ensures exact { IfOk result (λ found. found ≡ runs is_integer (typed (operand_at (naming names.now))) (seen kept.now)) }
    ensures within { IfOk result (λ found. IfSome found (λ f. f.1 ≤ length kept.now)) }
{
    let mut indices = List::new(alloc);
    let mut at = 0;
    'reading: loop {
        let rest = after(kept, at);
        if !begins_integer(rest) {
            return Ok(Some((indices, at)));
        }
        match typed_operand(alloc, names, rest)? {
            Some((index, count)) => {
                indices.push(index)?;
                at += count;
            }
            None => return Ok(None),
        }
    }
}

/// `type, ptr p, iN i`.
fn indexed(
    alloc: Global,
    names: &Names,
    inbounds: bool,
    kept: &[Lexeme],
) -> Result<Option<(Inst, usize)>, OutOfMemory>
    ensures exact { IfOk result (λ found. found ≡ indexed_at (naming names.now) inbounds (seen kept.now)) }
    ensures within { IfOk result (λ found. IfSome found (λ f. f.1 ≤ length kept.now)) }
{
    let ((ty, base), count) = match typed_base(alloc, names, kept)? {
        Some(found) => found,
        None => return Ok(None),
    };
    match indices(alloc, names, after(kept, count))? {
        Some((indices, more)) => {
            let gep = Inst::Gep {
                inbounds,
                ty,
                base,
                indices,
            };
            Ok(Some((gep, count + more)))
        }
        None => Ok(None),
    }
}

/// `[inbounds] type, ptr p, iN i` behind `getelementptr`.
pub fn gep(
    alloc: Global,
    names: &Names,
    kept: &[Lexeme],
) -> Result<Option<(Inst, usize)>, OutOfMemory>
    ensures exact { IfOk result (λ found. found ≡ gep_at (naming names.now) (seen kept.now)) }
    ensures within { IfOk result (λ found. IfSome found (λ f. f.1 ≤ length kept.now)) }
{
    let (inbounds, skipped) = inbounds(kept);
    match indexed(alloc, names, inbounds, after(kept, skipped))? {
        Some((gep, count)) => Ok(Some((gep, skipped + count))),
        None => Ok(None),
    }
}

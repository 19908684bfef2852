//! Operands and blocks of instructions.
ghost use Rattle.std.specs.Prelude.{◌≡◌, ◌≤◌, length, option_map, IfOk, IfSome};
ghost use Rattle.ir_types.specs.declared.scalar.Scalar.TheVariants.{Ptr};
ghost use Rattle.ir_grammar.specs.Tokens.{seen};
ghost use Rattle.ir_locals.specs.Locals.{operand_in, local_among, local_name};
ghost use Rattle.ir_operands.specs.Mirrors.Naming.{naming};
ghost use Rattle.ir_operands.specs.Operands.{operand_at, block_at, typed, pair_at};
ghost use Rattle.ir_operands.specs.Mirrors.Shaped.{constant_operand_at};

use crate::marks::after;
use crate::names::Names;
use ir_constants::read_constant;
use ir_grammar::{Lexeme, Shape};
use ir_syntax::Operand;
use ir_types::{OutOfMemory, Scalar, Ty};
use std::alloc::Global;

/// A constant at a type, as an operand.
#[tactic(auto, unfolding(crate::specs::Mirrors::Naming::naming))]
fn constant(
    alloc: Global,
    names: &Names,
    ty: Scalar,
    kept: &[Lexeme],
) -> Result<Option<(Operand, usize)>, OutOfMemory>
    ensures exact { IfOk result (λ found. found ≡ constant_operand_at (naming names.now) ty (seen kept.now)) }
    ensures within { IfOk result (λ found. IfSome found (λ f. (1 ≤ f.1) × (f.1 ≤ length kept.now))) }
{
    match read_constant(alloc, names.scope, &Ty::One(ty), kept)? {
        Some((constant, count)) => Ok(Some((Operand::Const(constant), count))),
        None => Ok(None),
    }
}

/// A parameter or a register, by the text of its name.
#[tactic(auto, unfolding(crate::specs::Mirrors::Naming::naming))]
fn local(alloc: Global, names: &Names, text: &[u8]) -> Result<Option<(Operand, usize)>, OutOfMemory>
    ensures exact { IfOk result (λ found. found ≡ option_map (λ value. (value, 1)) (operand_in (local_among (naming names.now).locals (local_name text.now)))) }
    ensures one { IfOk result (λ found. IfSome found (λ f. f.1 ≡ 1)) }
{
    match names.locals.operand_of(alloc, text)? {
        Some(value) => Ok(Some((value, 1))),
        None => Ok(None),
    }
}

/// A local name, or a constant at the type.
pub fn operand(
    alloc: Global,
    names: &Names,
    ty: Scalar,
    kept: &[Lexeme],
) -> Result<Option<(Operand, usize)>, OutOfMemory>
    ensures exact { IfOk result (λ found. found ≡ operand_at (naming names.now) ty (seen kept.now)) }
    ensures within { IfOk result (λ found. IfSome found (λ f. (1 ≤ f.1) × (f.1 ≤ length kept.now))) }
{
    match kept {
        [first, ..] => match first.shape {
            Shape::Local => local(alloc, names, first.text),
            _ => constant(alloc, names, ty, kept),
        },
        [] => Ok(None),
    }
}

/// The name of a block.
#[tactic(auto, unfolding(crate::specs::Mirrors::Naming::naming))]
pub fn block(
    alloc: Global,
    names: &Names,
    kept: &[Lexeme],
) -> Result<Option<(usize, usize)>, OutOfMemory>
    ensures exact { IfOk result (λ found. found ≡ block_at (naming names.now) (seen kept.now)) }
    ensures within { IfOk result (λ found. IfSome found (λ f. f.1 ≤ length kept.now)) }
{
    match kept {
        [first, ..] => match first.shape {
            Shape::Local => match names.locals.block_of(alloc, first.text)? {
                Some(place) => Ok(Some((place, 1))),
                None => Ok(None),
            },
            _ => Ok(None),
        },
        [] => Ok(None),
    }
}

/// `a, b` of a type.
pub fn pair(
    alloc: Global,
    names: &Names,
    ty: Scalar,
    kept: &[Lexeme],
) -> Result<Option<((Operand, Operand), usize)>, OutOfMemory>
    ensures exact { IfOk result (λ found. found ≡ pair_at (naming names.now) ty (seen kept.now)) }
    ensures within { IfOk result (λ found. IfSome found (λ f. f.1 ≤ length kept.now)) }
{
    let (a, count) = match operand(alloc, names, ty, kept)? {
        Some(found) => found,
        None => return Ok(None),
    };
    match operand(alloc, names, ty, after(kept, count))? {
        Some((b, more)) => Ok(Some(((a, b), count + more))),
        None => Ok(None),
    }
}

/// `T a, b`.
pub fn typed_pair(
    alloc: Global,
    names: &Names,
    kept: &[Lexeme],
) -> Result<Option<((Scalar, (Operand, Operand)), usize)>, OutOfMemory>
    ensures exact { IfOk result (λ found. found ≡ typed (pair_at (naming names.now)) (seen kept.now)) }
    ensures within { IfOk result (λ found. IfSome found (λ f. f.1 ≤ length kept.now)) }
{
    match kept {
        [first, rest @ ..] => match first.shape {
            Shape::Scalar(ty) => match pair(alloc, names, ty, rest)? {
                Some((operands, count)) => Ok(Some(((ty, operands), 1 + count))),
                None => Ok(None),
            },
            _ => Ok(None),
        },
        [] => Ok(None),
    }
}

/// `T a`.
pub fn typed_operand(
    alloc: Global,
    names: &Names,
    kept: &[Lexeme],
) -> Result<Option<((Scalar, Operand), usize)>, OutOfMemory>
    ensures exact { IfOk result (λ found. found ≡ typed (operand_at (naming names.now)) (seen kept.now)) }
    ensures within { IfOk result (λ found. IfSome found (λ f. (1 ≤ f.1) × (f.1 ≤ length kept.now))) }
{
    match kept {
        [first, rest @ ..] => match first.shape {
            Shape::Scalar(ty) => match operand(alloc, names, ty, rest)? {
                Some((value, count)) => Ok(Some(((ty, value), 1 + count))),
                None => Ok(None),
            },
            _ => Ok(None),
        },
        [] => Ok(None),
    }
}

/// `T, ptr p`.
pub fn typed_place(
    alloc: Global,
    names: &Names,
    kept: &[Lexeme],
) -> Result<Option<((Scalar, Operand), usize)>, OutOfMemory>
    ensures exact { IfOk result (λ found. found ≡ typed (λ ty. operand_at (naming names.now) Ptr) (seen kept.now)) }
    ensures within { IfOk result (λ found. IfSome found (λ f. f.1 ≤ length kept.now)) }
{
    match kept {
        [first, rest @ ..] => match first.shape {
            Shape::Scalar(ty) => match operand(alloc, names, Scalar::Ptr, rest)? {
                Some((place, count)) => Ok(Some(((ty, place), 1 + count))),
                None => Ok(None),
            },
            _ => Ok(None),
        },
        [] => Ok(None),
    }
}

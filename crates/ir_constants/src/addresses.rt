//! Constant addresses: a symbol, or a constant `getelementptr` from an address.
ghost use Rattle.std.specs.Prelude.{◌≡◌, ◌≤◌, not, drop, length, All, IfOk, IfSome};
ghost use Rattle.ir_types.specs.Nesting.{IsWithinNesting};
ghost use Rattle.ir_grammar.specs.Tokens.{seen};
ghost use Rattle.ir_scope.specs.Runs.{begins_with, runs, closed_by};
ghost use Rattle.ir_scope.specs.Scopes.{env_of};
ghost use Rattle.ir_constants.specs.Mirrors.Indices.{IsIndex};
ghost use Rattle.ir_constants.specs.Constants.{is_close_paren, index_at, unflagged, moved, base_at, address_at};

use crate::offsets::offset_of;
use crate::symbols::place_of;
use ir_grammar::{Flag, Free, Lexeme, Shape};
use ir_scope::{Scope, read_number, read_type};
use ir_types::{OutOfMemory, Scalar, Ty};
use sqlite_items::Items as List;
use std::alloc::Global;

/// A symbol's place, and an offset modulo 2^64.
pub type Place = (usize, u64);

/// Whether a closing parenthesis stands at the front.
fn is_closed(kept: &[Lexeme]) -> bool
    ensures { result ≡ begins_with is_close_paren (seen kept.now) }
{
    match kept {
        [first, ..] => match first.shape {
            Shape::CloseParen => true,
            _ => false,
        },
        [] => false,
    }
}

/// The index `iN n` at the front. It takes two lexemes.
fn index(kept: &[Lexeme]) -> Option<((Scalar, u64), usize)>
    ensures exact { result ≡ index_at (seen kept.now) }
    ensures taken { IfSome result (λ found. (1 ≤ found.1) × (found.1 ≤ length kept.now)) }
    ensures number { IfSome result (λ found. IsIndex found.0) }
{
    match kept {
        [ty, number, ..] => match ty.shape {
            Shape::Scalar(scalar) => match read_number(scalar, number) {
                Some(number) => Some(((scalar, number), 2)),
                None => None,
            },
            _ => None,
        },
        _ => None,
    }
}

/// The indices up to the closing parenthesis, and how many lexemes spell them with it.
fn indices(
    alloc: Global,
    kept: &[Lexeme],
) -> Result<Option<(List<(Scalar, u64)>, usize)>, OutOfMemory>
    ensures exact { IfOk result (λ found. found ≡ closed_by is_close_paren (seen kept.now) (runs (λ shape. not (is_close_paren shape)) index_at (seen kept.now))) }
    ensures taken { IfOk result (λ found. IfSome found (λ f. (1 ≤ f.1) × (f.1 ≤ length kept.now))) }
    ensures numbers { IfOk result (λ found. IfSome found (λ f. All IsIndex f.0)) }
{
    let mut indices = List::new(alloc);
    let mut at = 0;
    'reading: while !is_closed(&kept[at..]) {
        match index(&kept[at..]) {
            Some((index, taken)) => {
                indices.push(index)?;
                at += taken;
            }
            None => return Ok(None),
        }
    }
    Ok(Some((indices, at + 1)))
}

/// How many lexemes the flag `inbounds` takes, where it stands at the front.
fn flag_count(kept: &[Lexeme]) -> usize
    ensures count { result ≡ (unflagged (seen kept.now)).1 }
    ensures rest { drop result (seen kept.now) ≡ (unflagged (seen kept.now)).0 }
    ensures within { result ≤ length kept.now }
{
    match kept {
        [first, ..] => match first.shape {
            Shape::Free(Free::Flag(Flag::Inbounds)) => 1,
            _ => 0,
        },
        [] => 0,
    }
}

/// The address that the indices behind a base lead to, with the closing parenthesis.
fn moved(
    alloc: Global,
    ty: &Ty,
    kept: &[Lexeme],
    base: (Place, usize),
) -> Result<Option<(Place, usize)>, OutOfMemory>
    requires nests { IsWithinNesting ty.now }
    requires within { base.1 ≤ length kept.now }
    ensures exact { IfOk result (λ found. found ≡ moved ty.now (seen kept.now) base) }
    ensures taken { IfOk result (λ found. IfSome found (λ f. (1 ≤ f.1) × (f.1 ≤ length kept.now))) }
{
    let ((place, from), base_taken) = base;
    let (indices, taken) = match indices(alloc, &kept[base_taken..])? {
        Some(found) => found,
        None => return Ok(None),
    };
    match offset_of(alloc, ty, indices.as_slice())? {
        Some(offset) => Ok(Some(((place, from.wrapping_add(offset)), base_taken + taken))),
        None => Ok(None),
    }
}

/// The base of an address: `@name`, or an address again, within which so many may be open.
#[cycle(address)]
fn base(
    alloc: Global,
    scope: &Scope,
    depth: usize,
    kept: &[Lexeme],
) -> Result<Option<(Place, usize)>, OutOfMemory>
    ensures exact { IfOk result (λ found. found ≡ base_at scope.now.symbols (address_at (env_of scope.now) depth) (seen kept.now)) }
    ensures taken { IfOk result (λ found. IfSome found (λ f. (1 ≤ f.1) × (f.1 ≤ length kept.now))) }
{
    match kept {
        [first, behind @ ..] => match first.shape {
            Shape::At(_) => match place_of(alloc, scope, first.text)? {
                Some(place) => Ok(Some(((place, 0), 1))),
                None => Ok(None),
            },
            Shape::Address => match address(alloc, scope, depth, behind)? {
                Some((place, taken)) => Ok(Some((place, 1 + taken))),
                None => Ok(None),
            },
            _ => Ok(None),
        },
        [] => Ok(None),
    }
}

/// The address behind its word: `inbounds` or not, a type, a base and indices. So many addresses may be open.
#[cycle(address)]
pub fn address(
    alloc: Global,
    scope: &Scope,
    depth: usize,
    kept: &[Lexeme],
) -> Result<Option<(Place, usize)>, OutOfMemory>
    ensures exact { IfOk result (λ found. found ≡ address_at (env_of scope.now) depth (seen kept.now)) }
    ensures taken { IfOk result (λ found. IfSome found (λ f. (1 ≤ f.1) × (f.1 ≤ length kept.now))) }
{
    if depth == 0 {
        return Ok(None);
    }
    let flags = flag_count(kept);
    let typed = &kept[flags..];
    let (ty, ty_taken) = match read_type(alloc, scope, typed)? {
        Some(found) => found,
        None => return Ok(None),
    };
    let operands = &typed[ty_taken..];
    let base = match base(alloc, scope, depth - 1, operands)? {
        Some(base) => base,
        None => return Ok(None),
    };
    match moved(alloc, &ty, operands, base)? {
        Some((place, taken)) => Ok(Some((place, flags + ty_taken + taken))),
        None => Ok(None),
    }
}

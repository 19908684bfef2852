//! Constants at their types.
ghost use Rattle.std.specs.Prelude.{◌≡◌, ◌≤◌, ◌<◌, ◌-◌, ◌^◌, not, length, Some, option_map, IfOk, IfSome};
ghost use Rattle.ir_syntax.specs.declared.constant.Const.TheViews.{Many};
ghost use Rattle.ir_types.specs.declared.shape.Ty.{out-Ty};
ghost use Rattle.ir_grammar.specs.Tokens.{seen};
ghost use Rattle.ir_scope.specs.Runs.{begins_with, behind, runs, closed_by};
ghost use Rattle.ir_scope.specs.Scopes.{env_of, type_among};
ghost use Rattle.ir_scope.specs.Types.{is_close_brace};
ghost use Rattle.ir_constants.specs.Constants.{is_close_square, part_at, parts_at, counted, elements_at, fields_at, address_of, constant_within, constant_at};
ghost use Rattle.ir_constants.specs.Mirrors.Known.{IsKnown};

use crate::addresses::address;
use crate::known::{front_name, typed};
use crate::singles::{is_pointer_type, single};
use ir_grammar::{Lexeme, Shape};
use ir_scope::Scope;
use ir_syntax::Const;
use ir_types::{OutOfMemory, Scalar, Ty};
use sqlite_items::Items as List;
use std::alloc::Global;

/// So many addresses may be open, and so many arrays and structs.
const DEEPEST: usize = 64;

/// Whether a closing square bracket stands at the front.
fn ends_elements(kept: &[Lexeme]) -> bool
    ensures { result ≡ begins_with is_close_square (seen kept.now) }
{
    match kept {
        [first, ..] => match first.shape {
            Shape::CloseSquare => true,
            _ => false,
        },
        [] => false,
    }
}

/// Whether a closing brace stands at the front.
fn ends_fields(kept: &[Lexeme]) -> bool
    ensures { result ≡ begins_with is_close_brace (seen kept.now) }
{
    match kept {
        [first, ..] => match first.shape {
            Shape::CloseBrace => true,
            _ => false,
        },
        [] => false,
    }
}

/// The parts, where they are just so many.
fn counted(count: u64, found: Option<(List<Const>, usize)>) -> Option<(Const, usize)>
    ensures { result ≡ counted count found }
{
    match found {
        Some((parts, taken)) => {
            if parts.len() as u64 == count {
                Some((Const::Many(parts), taken))
            } else {
                None
            }
        }
        None => None,
    }
}

/// The fields, where a closing brace stands behind them.
fn closed_fields(parts: List<Const>, taken: usize, kept: &[Lexeme]) -> Option<(Const, usize)>
    requires { taken ≤ length kept.now }
    ensures exact { result ≡ option_map (λ f. (Many f.0, f.1)) (closed_by is_close_brace (seen kept.now) (Some (parts, taken))) }
    ensures taken { IfSome result (λ f. f.1 ≤ length kept.now) }
{
    if ends_fields(&kept[taken..]) {
        Some((Const::Many(parts), taken + 1))
    } else {
        None
    }
}

/// The same constant with one lexeme before it.
fn one_more(found: Option<(Const, usize)>) -> Option<(Const, usize)>
    requires { IfSome found (λ f. f.1 < 2 ^ 64 - 1) }
    ensures { result ≡ behind 1 found }
{
    match found {
        Some((constant, taken)) => Some((constant, 1 + taken)),
        None => None,
    }
}

/// The address behind its word, at a pointer.
fn address_of(
    alloc: Global,
    scope: &Scope,
    ty: &Ty,
    kept: &[Lexeme],
) -> Result<Option<(Const, usize)>, OutOfMemory>
    ensures exact { IfOk result (λ found. found ≡ address_of (env_of scope.now) (out-Ty ty.now) (seen kept.now)) }
    ensures taken { IfOk result (λ found. IfSome found (λ f. f.1 ≤ length kept.now)) }
{
    if !is_pointer_type(ty) {
        return Ok(None);
    }
    match address(alloc, scope, DEEPEST, kept)? {
        Some(((place, offset), taken)) => Ok(Some((
            Const::Addr(place, Scalar::I64.signed(offset)),
            taken,
        ))),
        None => Ok(None),
    }
}

/// One part `T C`, where T is this type, for which the known name stands. So many arrays and structs may be open within it.
#[cycle(constants)]
fn part(
    alloc: Global,
    scope: &Scope,
    depth: usize,
    ty: &Ty,
    known: Option<&[u8]>,
    kept: &[Lexeme],
) -> Result<Option<(Const, usize)>, OutOfMemory>
    requires { IsKnown (type_among scope.now.types) ty.now known }
    ensures exact { IfOk result (λ found. found ≡ part_at (env_of scope.now) (constant_within (env_of scope.now) depth) ty.now (seen kept.now)) }
    ensures taken { IfOk result (λ found. IfSome found (λ f. (1 ≤ f.1) × (f.1 ≤ length kept.now))) }
{
    let behind = match typed(alloc, scope, ty, known, kept)? {
        Some(behind) => behind,
        None => return Ok(None),
    };
    match constant_within(alloc, scope, depth, ty, &kept[behind..])? {
        Some((constant, taken)) => Ok(Some((constant, behind + taken))),
        None => Ok(None),
    }
}

/// The parts of one type up to the closing square bracket, and how many lexemes spell them with it.
#[cycle(constants)]
fn list(
    alloc: Global,
    scope: &Scope,
    depth: usize,
    element: &Ty,
    kept: &[Lexeme],
) -> Result<Option<(List<Const>, usize)>, OutOfMemory>
    ensures exact { IfOk result (λ found. found ≡ closed_by is_close_square (seen kept.now) (runs (λ shape. not (is_close_square shape)) (part_at (env_of scope.now) (constant_within (env_of scope.now) depth) element.now) (seen kept.now))) }
    ensures taken { IfOk result (λ found. IfSome found (λ f. f.1 ≤ length kept.now)) }
{
    let mut parts = List::new(alloc);
    let mut known = None;
    let mut at = 0;
    'reading: while !ends_elements(&kept[at..]) {
        match part(alloc, scope, depth, element, known, &kept[at..])? {
            Some((part, taken)) => {
                parts.push(part)?;
                known = front_name(&kept[at..]);
                at += taken;
            }
            None => return Ok(None),
        }
    }
    Ok(Some((parts, at + 1)))
}

/// The elements of an array, behind the opening square bracket.
#[cycle(constants)]
fn elements(
    alloc: Global,
    scope: &Scope,
    depth: usize,
    ty: &Ty,
    kept: &[Lexeme],
) -> Result<Option<(Const, usize)>, OutOfMemory>
    ensures exact { IfOk result (λ found. found ≡ elements_at (env_of scope.now) (constant_within (env_of scope.now) depth) (out-Ty ty.now) (seen kept.now)) }
    ensures taken { IfOk result (λ found. IfSome found (λ f. f.1 ≤ length kept.now)) }
{
    match ty {
        Ty::Array(count, element) => {
            let found = list(alloc, scope, depth, element.get(), kept)?;
            Ok(counted(*count, found))
        }
        Ty::One(_) => Ok(None),
        Ty::Struct(_) => Ok(None),
    }
}

/// One part for each of the types.
#[cycle(constants)]
fn parts(
    alloc: Global,
    scope: &Scope,
    depth: usize,
    types: &[Ty],
    kept: &[Lexeme],
) -> Result<Option<(List<Const>, usize)>, OutOfMemory>
    ensures exact { IfOk result (λ found. found ≡ parts_at (env_of scope.now) (constant_within (env_of scope.now) depth) types.now (seen kept.now)) }
    ensures taken { IfOk result (λ found. IfSome found (λ f. f.1 ≤ length kept.now)) }
{
    let mut parts = List::new(alloc);
    let mut at = 0;
    'reading: for ty in types {
        match part(alloc, scope, depth, ty, None, &kept[at..])? {
            Some((part, taken)) => {
                parts.push(part)?;
                at += taken;
            }
            None => return Ok(None),
        }
    }
    Ok(Some((parts, at)))
}

/// The fields of a struct, behind the opening brace.
#[cycle(constants)]
fn fields(
    alloc: Global,
    scope: &Scope,
    depth: usize,
    ty: &Ty,
    kept: &[Lexeme],
) -> Result<Option<(Const, usize)>, OutOfMemory>
    ensures exact { IfOk result (λ found. found ≡ fields_at (env_of scope.now) (constant_within (env_of scope.now) depth) (out-Ty ty.now) (seen kept.now)) }
    ensures taken { IfOk result (λ found. IfSome found (λ f. f.1 ≤ length kept.now)) }
{
    match ty {
        Ty::Struct(types) => match parts(alloc, scope, depth, types.as_slice(), kept)? {
            Some((parts, at)) => Ok(closed_fields(parts, at, kept)),
            None => Ok(None),
        },
        Ty::One(_) => Ok(None),
        Ty::Array(_, _) => Ok(None),
    }
}

/// The constant at the front, at a type. So many arrays and structs may be open.
#[cycle(constants)]
fn constant_within(
    alloc: Global,
    scope: &Scope,
    depth: usize,
    ty: &Ty,
    kept: &[Lexeme],
) -> Result<Option<(Const, usize)>, OutOfMemory>
    ensures exact { IfOk result (λ found. found ≡ constant_within (env_of scope.now) depth ty.now (seen kept.now)) }
    ensures taken { IfOk result (λ found. IfSome found (λ f. (1 ≤ f.1) × (f.1 ≤ length kept.now))) }
{
    let [first, behind @ ..] = kept else {
        return Ok(None);
    };
    match first.shape {
        Shape::Address => Ok(one_more(address_of(alloc, scope, ty, behind)?)),
        Shape::OpenSquare => {
            if depth == 0 {
                return Ok(None);
            }
            Ok(one_more(elements(alloc, scope, depth - 1, ty, behind)?))
        }
        Shape::OpenBrace => {
            if depth == 0 {
                return Ok(None);
            }
            Ok(one_more(fields(alloc, scope, depth - 1, ty, behind)?))
        }
        _ => match single(alloc, scope, ty, first)? {
            Some(constant) => Ok(Some((constant, 1))),
            None => Ok(None),
        },
    }
}

/// Reads the constant at the front of kept lexemes, at a type, and says how many of them spell it.
///
/// Which constants a type takes is what the LLVM Language Reference Manual says under "Constants": an integer type
/// takes an integer from -2^(w-1) to 2^w - 1, modulo 2^w, and `i1` also `true` and `false`; `ptr` takes `null`, `@name`
/// of a symbol of the module, and a constant `getelementptr` from such an address, of which at most 64 nest; any type
/// takes `undef`, `poison` and `zeroinitializer`, which at an integer type is 0 and at `ptr` null; an array takes just
/// so many `T C` of its element's type, or `c"text"` of just so many bytes where its element is `i8`; and a struct
/// takes one `T C` for each of its fields, of the field's type. At most 64 arrays and structs nest.
///
/// `None` is the answer where no such constant stands there: a value that the type doesn't take, a name that is no
/// symbol, or indices that go nowhere. `OutOfMemory` comes where the allocator refuses memory.
pub fn read_constant(
    alloc: Global,
    scope: &Scope,
    ty: &Ty,
    kept: &[Lexeme],
) -> Result<Option<(Const, usize)>, OutOfMemory>
    ensures exact { IfOk result (λ found. found ≡ constant_at (env_of scope.now) ty.now (seen kept.now)) }
    ensures taken { IfOk result (λ found. IfSome found (λ f. (1 ≤ f.1) × (f.1 ≤ length kept.now))) }
{
    constant_within(alloc, scope, DEEPEST, ty, kept)
}

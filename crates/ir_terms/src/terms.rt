//! Phis and terminators, behind their words.
ghost use Rattle.std.specs.Prelude.{◌≡◌, ◌≤◌, length, not, IfOk, IfSome};
ghost use Rattle.ir_grammar.specs.Tokens.{seen};
ghost use Rattle.ir_scope.specs.Runs.{runs, begins_with};
ghost use Rattle.ir_constants.specs.Constants.{is_close_square};
ghost use Rattle.ir_operands.specs.Mirrors.Naming.{naming};
ghost use Rattle.ir_terms.specs.Terms.{is_open_square, entry_at, phi_at, ret_at, br_at, case_at, cases_at, switch_at};
ghost use Rattle.ir_terms.specs.Mirrors.Shaped.{begins_case, branch_at, jump_at, value_ret_at, defaulted_at};

use ir_grammar::{Lexeme, Shape};
use ir_operands::{Names, after, block, operand, typed_operand};
use ir_scope::read_number;
use ir_syntax::{Operand, Phi, Term};
use ir_types::{List, OutOfMemory, Scalar};
use std::alloc::Global;

/// Whether an opening bracket stands in front.
fn opens_square(kept: &[Lexeme]) -> bool
    ensures { result ≡ begins_with is_open_square (seen kept.now) }
{
    match kept {
        [first, ..] => match first.shape {
            Shape::OpenSquare => true,
            _ => false,
        },
        [] => false,
    }
}

/// Whether a closing bracket stands in front.
fn closes_square(kept: &[Lexeme]) -> bool
    ensures { result ≡ begins_with is_close_square (seen kept.now) }
{
    match kept {
        [first, ..] => match first.shape {
            Shape::CloseSquare => true,
            _ => false,
        },
        [] => false,
    }
}

/// Whether a case stands in front: anything but a closing bracket.
fn begins_case(kept: &[Lexeme]) -> bool
    ensures { result ≡ begins_with begins_case (seen kept.now) }
{
    match kept {
        [first, ..] => match first.shape {
            Shape::CloseSquare => false,
            _ => true,
        },
        [] => false,
    }
}

// ---- phis

/// An operand of a type, and the name of a block.
fn incoming(
    alloc: Global,
    names: &Names,
    ty: Scalar,
    kept: &[Lexeme],
) -> Result<Option<((Operand, usize), usize)>, OutOfMemory>
    ensures exact { IfOk result (λ found. found ≡ defaulted_at (naming names.now) ty (seen kept.now)) }
    ensures within { IfOk result (λ found. IfSome found (λ f. f.1 ≤ length kept.now)) }
{
    let (value, count) = match operand(alloc, names, ty, kept)? {
        Some(found) => found,
        None => return Ok(None),
    };
    match block(alloc, names, after(kept, count))? {
        Some((place, more)) => Ok(Some(((value, place), count + more))),
        None => Ok(None),
    }
}

/// `[ a, %l ]` of a type.
fn entry(
    alloc: Global,
    names: &Names,
    ty: Scalar,
    kept: &[Lexeme],
) -> Result<Option<((Operand, usize), usize)>, OutOfMemory>
    ensures exact { IfOk result (λ found. found ≡ entry_at (naming names.now) ty (seen kept.now)) }
    ensures within { IfOk result (λ found. IfSome found (λ f. (1 ≤ f.1) × (f.1 ≤ length kept.now))) }
{
    match kept {
        [first, rest @ ..] => match first.shape {
            Shape::OpenSquare => match incoming(alloc, names, ty, rest)? {
                Some((entry, count)) => Ok(Some((entry, 1 + count))),
                None => Ok(None),
            },
            _ => Ok(None),
        },
        [] => Ok(None),
    }
}

/// The entries up to the first lexeme that is no opening bracket.
fn entries(
    alloc: Global,
    names: &Names,
    ty: Scalar,
    kept: &[Lexeme],
) -> Result<Option<(List<(Operand, usize)>, usize)>, OutOfMemory>
    ensures exact { IfOk result (λ found. found ≡ runs is_open_square (entry_at (naming names.now) ty) (seen kept.now)) }
    ensures within { IfOk result (λ found. IfSome found (λ f. f.1 ≤ length kept.now)) }
{
    let mut entries = List::new(alloc);
    let mut at = 0;
    'reading: loop {
        let rest = after(kept, at);
        if !opens_square(rest) {
            return Ok(Some((entries, at)));
        }
        match entry(alloc, names, ty, rest)? {
            Some((entry, count)) => {
                entries.push(entry)?;
                at += count;
            }
            None => return Ok(None),
        }
    }
}

/// `T [ a, %l ], [ b, %m ]` behind `phi`.
pub fn phi(
    alloc: Global,
    names: &Names,
    kept: &[Lexeme],
) -> Result<Option<(Phi, usize)>, OutOfMemory>
    ensures exact { IfOk result (λ found. found ≡ phi_at (naming names.now) (seen kept.now)) }
    ensures within { IfOk result (λ found. IfSome found (λ f. f.1 ≤ length kept.now)) }
{
    match kept {
        [first, rest @ ..] => match first.shape {
            Shape::Scalar(ty) => match entries(alloc, names, ty, rest)? {
                Some((entries, count)) => {
                    if entries.is_empty() {
                        return Ok(None);
                    }
                    Ok(Some((Phi { ty, entries }, 1 + count)))
                }
                None => Ok(None),
            },
            _ => Ok(None),
        },
        [] => Ok(None),
    }
}

// ---- terminators

/// `T a` behind `ret`.
fn value_ret(
    alloc: Global,
    names: &Names,
    kept: &[Lexeme],
) -> Result<Option<(Term, usize)>, OutOfMemory>
    ensures exact { IfOk result (λ found. found ≡ value_ret_at (naming names.now) (seen kept.now)) }
    ensures within { IfOk result (λ found. IfSome found (λ f. f.1 ≤ length kept.now)) }
{
    match typed_operand(alloc, names, kept)? {
        Some(((ty, value), count)) => Ok(Some((Term::Ret(ty, value), count))),
        None => Ok(None),
    }
}

/// `void` or `T a` behind `ret`.
pub fn ret(
    alloc: Global,
    names: &Names,
    kept: &[Lexeme],
) -> Result<Option<(Term, usize)>, OutOfMemory>
    ensures exact { IfOk result (λ found. found ≡ ret_at (naming names.now) (seen kept.now)) }
    ensures within { IfOk result (λ found. IfSome found (λ f. f.1 ≤ length kept.now)) }
{
    match kept {
        [first, ..] => match first.shape {
            Shape::Void => Ok(Some((Term::RetVoid, 1))),
            _ => value_ret(alloc, names, kept),
        },
        [] => Ok(None),
    }
}

/// `label %l` behind `br`.
fn jump(alloc: Global, names: &Names, kept: &[Lexeme]) -> Result<Option<(Term, usize)>, OutOfMemory>
    ensures exact { IfOk result (λ found. found ≡ jump_at (naming names.now) (seen kept.now)) }
    ensures within { IfOk result (λ found. IfSome found (λ f. f.1 ≤ length kept.now)) }
{
    match block(alloc, names, kept)? {
        Some((place, count)) => Ok(Some((Term::Br(place), count))),
        None => Ok(None),
    }
}

/// `c, label %l, label %m` behind `br i1`.
fn branch(
    alloc: Global,
    names: &Names,
    kept: &[Lexeme],
) -> Result<Option<(Term, usize)>, OutOfMemory>
    ensures exact { IfOk result (λ found. found ≡ branch_at (naming names.now) (seen kept.now)) }
    ensures within { IfOk result (λ found. IfSome found (λ f. f.1 ≤ length kept.now)) }
{
    let ((cond, one), count) = match incoming(alloc, names, Scalar::I1, kept)? {
        Some(found) => found,
        None => return Ok(None),
    };
    match block(alloc, names, after(kept, count))? {
        Some((other, more)) => Ok(Some((Term::CondBr(cond, one, other), count + more))),
        None => Ok(None),
    }
}

/// What stands behind `br`.
pub fn br(
    alloc: Global,
    names: &Names,
    kept: &[Lexeme],
) -> Result<Option<(Term, usize)>, OutOfMemory>
    ensures exact { IfOk result (λ found. found ≡ br_at (naming names.now) (seen kept.now)) }
    ensures within { IfOk result (λ found. IfSome found (λ f. f.1 ≤ length kept.now)) }
{
    match kept {
        [first, rest @ ..] => match first.shape {
            Shape::Scalar(Scalar::I1) => match branch(alloc, names, rest)? {
                Some((branch, count)) => Ok(Some((branch, 1 + count))),
                None => Ok(None),
            },
            _ => jump(alloc, names, kept),
        },
        [] => Ok(None),
    }
}

/// `c, label %l` of a switch over a type.
fn case(
    alloc: Global,
    names: &Names,
    ty: Scalar,
    kept: &[Lexeme],
) -> Result<Option<((u64, usize), usize)>, OutOfMemory>
    ensures exact { IfOk result (λ found. found ≡ case_at (naming names.now) ty (seen kept.now)) }
    ensures within { IfOk result (λ found. IfSome found (λ f. (1 ≤ f.1) × (f.1 ≤ length kept.now))) }
{
    let (first, rest) = match kept {
        [first, rest @ ..] => (first, rest),
        [] => return Ok(None),
    };
    let number = match read_number(ty, first) {
        Some(number) => number,
        None => return Ok(None),
    };
    match block(alloc, names, rest)? {
        Some((place, count)) => Ok(Some(((number, place), 1 + count))),
        None => Ok(None),
    }
}

/// The cases up to a closing bracket.
fn listed_cases(
    alloc: Global,
    names: &Names,
    ty: Scalar,
    kept: &[Lexeme],
) -> Result<Option<(List<(u64, usize)>, usize)>, OutOfMemory>
    ensures exact { IfOk result (λ found. found ≡ runs begins_case (case_at (naming names.now) ty) (seen kept.now)) }
    ensures within { IfOk result (λ found. IfSome found (λ f. f.1 ≤ length kept.now)) }
{
    let mut cases = List::new(alloc);
    let mut at = 0;
    'reading: loop {
        let rest = after(kept, at);
        if !begins_case(rest) {
            return Ok(Some((cases, at)));
        }
        match case(alloc, names, ty, rest)? {
            Some((case, count)) => {
                cases.push(case)?;
                at += count;
            }
            None => return Ok(None),
        }
    }
}

/// The cases, with the closing bracket.
fn cases(
    alloc: Global,
    names: &Names,
    ty: Scalar,
    kept: &[Lexeme],
) -> Result<Option<(List<(u64, usize)>, usize)>, OutOfMemory>
    ensures exact { IfOk result (λ found. found ≡ cases_at (naming names.now) ty (seen kept.now)) }
    ensures within { IfOk result (λ found. IfSome found (λ f. f.1 ≤ length kept.now)) }
{
    match listed_cases(alloc, names, ty, kept)? {
        Some((cases, count)) => {
            if closes_square(after(kept, count)) {
                Ok(Some((cases, count + 1)))
            } else {
                Ok(None)
            }
        }
        None => Ok(None),
    }
}

/// `T v, label %d [ cases ]` behind `switch`.
pub fn switch(
    alloc: Global,
    names: &Names,
    kept: &[Lexeme],
) -> Result<Option<(Term, usize)>, OutOfMemory>
    ensures exact { IfOk result (λ found. found ≡ switch_at (naming names.now) (seen kept.now)) }
    ensures within { IfOk result (λ found. IfSome found (λ f. f.1 ≤ length kept.now)) }
{
    let (ty, rest) = match kept {
        [first, rest @ ..] => match first.shape {
            Shape::Scalar(ty) => (ty, rest),
            _ => return Ok(None),
        },
        [] => return Ok(None),
    };
    let ((value, default), count) = match incoming(alloc, names, ty, rest)? {
        Some(found) => found,
        None => return Ok(None),
    };
    match cases(alloc, names, ty, after(rest, count))? {
        Some((cases, more)) => {
            let switch = Term::Switch {
                ty,
                value,
                default,
                cases,
            };
            Ok(Some((switch, 1 + (count + more))))
        }
        None => Ok(None),
    }
}

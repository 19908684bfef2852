//! What is left of terminators.
ghost use Rattle.std.specs.Prelude.{◌≡◌, IfOk, map};
ghost use Rattle.interface.specs.Masks.{rank};
ghost use Rattle.specialise.specs.Residual.{number_in as number_of, case_block as block_of_case, left_branch as branch_left, left_switch as switch_left, left_term as term_left};
ghost use Rattle.specialise.specs.Mirrors.Shown.{shown};

use crate::left::Left;
use interface::{Mask, known_of};
use ir_syntax::{MapOperand, Operand, Term};
use ir_types::{Known, List, OutOfMemory, Scalar};
use std::alloc::Global;

fn number_in(value: Known) -> Option<u64>
    ensures { result ≡ number_of value }
{
    match value {
        Known::Unknown => None,
        Known::Num(number) => Some(number),
        Known::Null => None,
    }
}

/// The block of the first case for a number, and else the default.
fn case_block(number: u64, default: usize, cases: &[(u64, usize)]) -> usize
    ensures { result ≡ block_of_case number default cases.now }
{
    for case in cases {
        if case.0 == number {
            return case.1;
        }
    }
    default
}

/// The cases, by the new places of their blocks.
fn left_cases(
    alloc: Global,
    reached: &Mask,
    cases: &[(u64, usize)],
) -> Result<List<(u64, usize)>, OutOfMemory>
    ensures { IfOk result (λ made. made ≡ map (λ case. (case.0, rank reached.now case.1)) cases.now) }
{
    let mut made = List::new(alloc);
    for case in cases {
        made.push((case.0, reached.rank(case.1)))?;
    }
    Ok(made)
}

fn left_branch(
    alloc: Global,
    left: &Left<'_>,
    number: Option<u64>,
    cond: &Operand,
    one: usize,
    other: usize,
) -> Result<Term, OutOfMemory>
    ensures { IfOk result (λ term. term ≡ branch_left (shown left.now) number cond.now one other) }
{
    match number {
        Some(0) => Ok(Term::Br(left.reached.rank(other))),
        Some(_) => Ok(Term::Br(left.reached.rank(one))),
        None => {
            let cond = left.map(alloc, cond)?;
            Ok(Term::CondBr(cond, left.reached.rank(one), left.reached.rank(other)))
        }
    }
}

fn left_switch(
    alloc: Global,
    left: &Left<'_>,
    number: Option<u64>,
    ty: Scalar,
    value: &Operand,
    default: usize,
    cases: &[(u64, usize)],
) -> Result<Term, OutOfMemory>
    ensures { IfOk result (λ term. term ≡ switch_left (shown left.now) number ty value.now default cases.now) }
{
    match number {
        Some(number) => Ok(Term::Br(left.reached.rank(case_block(number, default, cases)))),
        None => {
            let value = left.map(alloc, value)?;
            let cases = left_cases(alloc, &left.reached, cases)?;
            Ok(Term::Switch {
                ty,
                value,
                default: left.reached.rank(default),
                cases,
            })
        }
    }
}

/// What is left of a terminator of a reached block.
pub(crate) fn left_term(alloc: Global, left: &Left<'_>, term: &Term) -> Result<Term, OutOfMemory>
    ensures { IfOk result (λ made. made ≡ term_left (shown left.now) term.now) }
{
    let facts = left.facts.as_slice();
    match term {
        Term::RetVoid => Ok(Term::RetVoid),
        Term::Ret(ty, value) => Ok(Term::Ret(*ty, left.map(alloc, value)?)),
        Term::Br(to) => Ok(Term::Br(left.reached.rank(*to))),
        Term::CondBr(cond, one, other) => {
            let number = number_in(known_of(left.known, facts, cond));
            left_branch(alloc, left, number, cond, *one, *other)
        }
        Term::Switch {
            ty,
            value,
            default,
            cases,
        } => {
            let number = number_in(known_of(left.known, facts, value));
            left_switch(alloc, left, number, *ty, value, *default, cases.as_slice())
        }
        Term::Unreachable => Ok(Term::Unreachable),
    }
}

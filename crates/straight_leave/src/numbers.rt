//! New numbers of parameters and results.
ghost use Rattle.std.specs.Prelude.{◌≡◌, ◌<◌, length, IfOk};
ghost use Rattle.straight_leave.specs.Numbers.{numbers_of as new_numbers, number_at as number_found, unknown_before as unknown_items_before, numbered as renumbered};

use crate::facts::{fact_at, is_unknown, stays};
use ir_syntax::{Inst, Operand};
use ir_types::{Known, OutOfMemory};
use std::alloc::Global;
use straight_plan::Fact;

/// What is known of a function that is being left, and the new numbers of its results.
#[derive(Clone, Copy, Debug)]
pub(crate) struct Site<'a> {
    pub(crate) pattern: &'a [Known],
    pub(crate) facts: &'a [Fact],
    pub(crate) numbers: &'a [usize],
    /// All parameters are left.
    pub(crate) whole: bool,
}

/// For each instruction, and at the end, how many stay before it.
pub(crate) fn numbers_of(
    alloc: Global,
    facts: &[Fact],
    insts: &[Inst],
) -> Result<Vec<usize>, OutOfMemory>
    ensures { IfOk result (λ numbers. numbers.items ≡ new_numbers facts.now insts.now) }
{
    let mut numbers = Vec::new(alloc);
    let mut before = 0;
    for (k, inst) in insts.iter().enumerate() {
        numbers.push(before)?;
        if stays(fact_at(facts, k), inst) {
            before += 1;
        }
    }
    numbers.push(before)?;
    Ok(numbers)
}

fn number_at(numbers: &[usize], k: usize) -> usize
    ensures { result ≡ number_found numbers.now k }
{
    match numbers.get(k).copied() {
        Some(number) => number,
        None => match numbers.last().copied() {
            Some(last) => last,
            None => 0,
        },
    }
}

fn unknown_before(pattern: &[Known], k: usize) -> usize
    ensures { result ≡ unknown_items_before pattern.now k }
{
    pattern
        .iter()
        .take(k)
        .filter(|known| is_unknown(known))
        .count()
}

/// The operand with its new number.
pub(crate) fn numbered(site: &Site, operand: Operand) -> Operand
    ensures { result ≡ renumbered site.now.whole site.now.pattern.now site.now.numbers.now operand }
{
    match operand {
        Operand::Param(k) if site.whole => Operand::Param(k),
        Operand::Param(k) => Operand::Param(unknown_before(site.pattern, k)),
        Operand::Reg(k) => Operand::Reg(number_at(site.numbers, k)),
        Operand::Const(constant) => Operand::Const(constant),
    }
}

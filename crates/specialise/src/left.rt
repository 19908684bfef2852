//! How a body is left, and what its operands become.
ghost use Rattle.std.specs.Prelude.{◌≡◌};
ghost use Rattle.specialise.specs.Residual.{value_or as with_value, left_operand};
ghost use Rattle.specialise.specs.Mirrors.Shown.{shown};

use crate::edges::ReachedEdges;
use fold_facts::Fact;
use interface::{Mask, known_of};
use ir_syntax::{Const, MapOperand, Operand};
use ir_types::{Copied, Known, List, OutOfMemory};
use std::alloc::Global;

/// What is known of parameters and results, which blocks are reached, which results stay, and which edges are reached.
#[derive(Drop)]
pub(crate) struct Left<'a> {
    pub(crate) known: &'a [Known],
    pub(crate) facts: List<Fact>,
    pub(crate) reached: Mask,
    pub(crate) kept: Mask,
    pub(crate) edges: ReachedEdges,
}

/// The known value as an operand, or else the other operand.
fn value_or(other: Operand, value: Known) -> Operand
    ensures { result ≡ with_value other value }
{
    match value {
        Known::Unknown => other,
        Known::Num(number) => Operand::Const(Const::Int(number)),
        Known::Null => Operand::Const(Const::Null),
    }
}

impl<'a> MapOperand for Left<'a> {
    ghost maps = { λ w o. left_operand (shown w) o };

    fn map(&self, alloc: Global, operand: &Operand) -> Result<Operand, OutOfMemory> {
        match operand {
            Operand::Param(k) => {
                let value = known_of(self.known, self.facts.as_slice(), operand);
                Ok(value_or(Operand::Param(*k), value))
            }
            Operand::Reg(k) => {
                let value = known_of(self.known, self.facts.as_slice(), operand);
                Ok(value_or(Operand::Reg(self.kept.rank(*k)), value))
            }
            Operand::Const(constant) => Ok(Operand::Const(constant.copied(alloc)?)),
        }
    }
}

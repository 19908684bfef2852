//! A mapping of operands to try: parameters and results change places, and constants are forgotten.
ghost use Rattle.std.specs.Prelude.{◌≡◌, IfOk};

use ir_syntax::{Const, MapOperand, Operand};
use ir_types::OutOfMemory;
use std::alloc::Global;

pub struct Swapped;

impl MapOperand for Swapped {
    ghost use Rattle.base_rows.specs.Swapped.{swapped};

    ghost maps = { λ _ operand. swapped operand };

    fn map(&self, _alloc: Global, operand: &Operand) -> Result<Operand, OutOfMemory> {
        match operand {
            Operand::Param(place) => Ok(Operand::Reg(*place)),
            Operand::Reg(number) => Ok(Operand::Param(*number)),
            Operand::Const(_) => Ok(Operand::Const(Const::Undef)),
        }
    }
}

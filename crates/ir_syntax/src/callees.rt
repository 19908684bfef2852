//! Callees that are written as names.
ghost use Rattle.std.specs.Prelude.{◌≡◌};
ghost use Rattle.ir_syntax.specs.Callees.{written_callee, inst_callee};

use crate::{Const, Inst, Operand};

impl Operand {
    /// The place of the item whose name the operand is: that of an address with offset 0, which is the written name of
    /// its item. `None` comes of every other operand.
    pub fn written_callee(&self) -> Option<usize>
        ensures { result ≡ written_callee self.now }
    {
        match self {
            Operand::Const(Const::Addr(place, 0)) => Some(*place),
            _ => None,
        }
    }
}

impl Inst {
    /// The place of the item whose name is written as the callee of a call. `None` comes of a call through another
    /// operand, and of every other instruction.
    pub fn written_callee(&self) -> Option<usize>
        ensures { result ≡ inst_callee self.now }
    {
        match self {
            Inst::Call { callee, .. } => callee.written_callee(),
            Inst::Bin { .. } => None,
            Inst::Icmp { .. } => None,
            Inst::Select { .. } => None,
            Inst::Cast { .. } => None,
            Inst::Alloca { .. } => None,
            Inst::Load { .. } => None,
            Inst::Store { .. } => None,
            Inst::Gep { .. } => None,
        }
    }
}

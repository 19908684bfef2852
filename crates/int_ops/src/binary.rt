//! The operations of two operands.
ghost use Rattle.std.specs.Prelude.{◌≡◌};
ghost use Rattle.int_ops.specs.Binary.{bin_outcome};

use crate::Outcome;
use crate::bitwise::or;
use crate::divisions::{sdiv, srem, udiv, urem};
use crate::shifts::{ashr, lshr, shl};
use crate::sums::{add, mul, sub};
use ir_types::{BinOp, Flags, Scalar};

/// What an operation gives of two numbers of an integer type (LLVM Language Reference Manual, 'Binary Operations' and
/// 'Bitwise Binary Operations'): a number of the type, or poison where a flag asks for what doesn't hold, or where a shift is
/// by w or more. A division by 0 is undefined (`DivideByZero`), and so is the least signed value over -1 (`DivideOverflow`).
/// An operation looks at its own flags alone.
///
/// The width is to be an integer type, and the numbers below 2^w.
#[tactic(auto, unfolding(crate::specs::Binary::bin_outcome))]
pub fn bin(op: BinOp, flags: Flags, width: Scalar, a: u64, b: u64) -> Outcome
    ensures { result ≡ bin_outcome op flags width a b }
{
    match op {
        BinOp::Add => add(flags, width, a, b),
        BinOp::Sub => sub(flags, width, a, b),
        BinOp::Mul => mul(flags, width, a, b),
        BinOp::Udiv => udiv(flags.exact, a, b),
        BinOp::Sdiv => sdiv(flags.exact, width, a, b),
        BinOp::Urem => urem(a, b),
        BinOp::Srem => srem(width, a, b),
        BinOp::Shl => shl(flags, width, a, b),
        BinOp::Lshr => lshr(flags.exact, width, a, b),
        BinOp::Ashr => ashr(flags.exact, width, a, b),
        BinOp::And => Outcome::Num(a & b),
        BinOp::Or => or(flags.disjoint, a, b),
        BinOp::Xor => Outcome::Num(a ^ b),
    }
}

//! Casts.
ghost use Rattle.std.specs.Prelude.{◌≡◌};
ghost use Rattle.int_ops.specs.Casts.{cast_outcome};

use crate::Outcome;
use ir_types::{CastOp, Scalar};

/// What a cast between integer types gives of a number (LLVM Language Reference Manual, 'zext .. to' Instruction and the
/// like): a number of the type `to`, or poison where `nneg` stands at `zext` and the operand is negative. `nneg` counts at
/// `zext` alone.
///
/// The types are to be integers, `to` wider than `from` at `zext` and `sext` and narrower at `trunc`, and the number below 2^w
/// of `from`.
#[tactic(auto, unfolding(crate::specs::Casts::cast_outcome))]
pub fn cast(op: CastOp, nneg: bool, from: Scalar, to: Scalar, a: u64) -> Outcome
    ensures { result ≡ cast_outcome op nneg from to a }
{
    match op {
        CastOp::Zext => {
            if nneg && from.signed(a) < 0 {
                Outcome::Poison
            } else {
                Outcome::Num(a)
            }
        }
        CastOp::Sext => Outcome::Num(to.from_signed(from.signed(a))),
        CastOp::Trunc => Outcome::Num(to.truncated(a)),
    }
}

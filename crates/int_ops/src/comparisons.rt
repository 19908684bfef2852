//! Comparisons.
ghost use Rattle.std.specs.Prelude.{◌≡◌};
ghost use Rattle.int_ops.specs.Comparisons.{icmp_holds};

use ir_types::{Pred, Scalar};

/// Whether the predicate holds of two numbers of an integer type (LLVM Language Reference Manual, 'icmp' Instruction). The
/// predicates with `s` compare the signed values, the others the numbers.
///
/// The width is to be an integer type, and the numbers below 2^w.
#[tactic(auto, unfolding(crate::specs::Comparisons::icmp_holds))]
pub fn icmp(pred: Pred, width: Scalar, a: u64, b: u64) -> bool
    ensures { result ≡ icmp_holds pred width a b }
{
    match pred {
        Pred::Eq => a == b,
        Pred::Ne => a != b,
        Pred::Ugt => a > b,
        Pred::Uge => a >= b,
        Pred::Ult => a < b,
        Pred::Ule => a <= b,
        Pred::Sgt => width.signed(a) > width.signed(b),
        Pred::Sge => width.signed(a) >= width.signed(b),
        Pred::Slt => width.signed(a) < width.signed(b),
        Pred::Sle => width.signed(a) <= width.signed(b),
    }
}

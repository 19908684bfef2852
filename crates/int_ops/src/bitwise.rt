//! Operations bit by bit.
ghost use Rattle.std.specs.Prelude.{◌≡◌};
ghost use Rattle.int_ops.specs.Bitwise.{or_outcome};

use crate::Outcome;

pub fn or(disjoint: bool, a: u64, b: u64) -> Outcome
    ensures { result ≡ or_outcome disjoint a b }
{
    if disjoint && a & b != 0 {
        Outcome::Poison
    } else {
        Outcome::Num(a | b)
    }
}

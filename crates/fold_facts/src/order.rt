//! Facts in rising order.
ghost use Rattle.std.specs.Prelude.{◌≡◌, MatchBool};
ghost use Rattle.fold_facts.specs.Facts.{IsBelow, is_same as same, join as joined};

use crate::Fact;
use ir_types::Known;

/// Whether two known values are one.
fn is_same(one: Known, other: Known) -> bool
    ensures { result ≡ same one other }
{
    match (one, other) {
        (Known::Unknown, Known::Unknown) => true,
        (Known::Unknown, Known::Num(_)) => false,
        (Known::Unknown, Known::Null) => false,
        (Known::Num(_), Known::Unknown) => false,
        (Known::Num(m), Known::Num(n)) => m == n,
        (Known::Num(_), Known::Null) => false,
        (Known::Null, Known::Unknown) => false,
        (Known::Null, Known::Num(_)) => false,
        (Known::Null, Known::Null) => true,
    }
}

/// The least fact that both are at most: of two different values it is that they vary.
pub(crate) fn join(one: Fact, other: Fact) -> Fact
    ensures { result ≡ joined one other }
{
    match (one, other) {
        (Fact::Unreached, _) => other,
        (Fact::One(v), Fact::Unreached) => Fact::One(v),
        (Fact::One(v), Fact::One(w)) => {
            if is_same(v, w) {
                Fact::One(v)
            } else {
                Fact::Varying
            }
        }
        (Fact::One(_), Fact::Varying) => Fact::Varying,
        (Fact::Varying, _) => Fact::Varying,
    }
}

/// Whether the one fact is at most the other.
pub(crate) fn is_below(one: Fact, other: Fact) -> bool
    ensures { MatchBool result (IsBelow one other) (IsBelow one other → ⊥) }
{
    match (one, other) {
        (Fact::Unreached, _) => true,
        (Fact::One(_), Fact::Unreached) => false,
        (Fact::One(v), Fact::One(w)) => is_same(v, w),
        (Fact::One(_), Fact::Varying) => true,
        (Fact::Varying, Fact::Unreached) => false,
        (Fact::Varying, Fact::One(_)) => false,
        (Fact::Varying, Fact::Varying) => true,
    }
}

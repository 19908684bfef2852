//! Operations on known values.
ghost use Rattle.std.specs.Prelude.{◌≡◌};
ghost use Rattle.fold_facts.specs.Arithmetic.{outcome_fact as of_outcome, bit_fact as of_bit, holds_of_equals as of_equals, bin_fact as of_bin, icmp_fact as of_icmp, cast_fact as of_cast};

use crate::Fact;
use int_ops::{Outcome, bin, cast, icmp};
use ir_types::{BinOp, CastOp, Flags, Known, Pred, Scalar};

/// The number that an operation gives. Where it gives none, the result varies.
fn outcome_fact(outcome: Outcome) -> Fact
    ensures { result ≡ of_outcome outcome }
{
    match outcome {
        Outcome::Num(number) => Fact::One(Known::Num(number)),
        Outcome::Poison => Fact::Varying,
        Outcome::Undefined(_) => Fact::Varying,
    }
}

fn bit_fact(holds: bool) -> Fact
    ensures { result ≡ of_bit holds }
{
    Fact::One(Known::Num(if holds { 1 } else { 0 }))
}

/// Whether the predicate holds of null and null.
fn holds_of_equals(pred: Pred) -> bool
    ensures { result ≡ of_equals pred }
{
    match pred {
        Pred::Eq => true,
        Pred::Ne => false,
        Pred::Ugt => false,
        Pred::Uge => true,
        Pred::Ult => false,
        Pred::Ule => true,
        Pred::Sgt => false,
        Pred::Sge => true,
        Pred::Slt => false,
        Pred::Sle => true,
    }
}

/// What an operation of two known values gives.
pub(crate) fn bin_fact(op: BinOp, flags: Flags, ty: Scalar, a: Known, b: Known) -> Fact
    ensures { result ≡ of_bin op flags ty a b }
{
    match (a, b) {
        (Known::Num(a), Known::Num(b)) => outcome_fact(bin(op, flags, ty, a, b)),
        (Known::Num(_), Known::Unknown) => Fact::Varying,
        (Known::Num(_), Known::Null) => Fact::Varying,
        (Known::Unknown, _) => Fact::Varying,
        (Known::Null, _) => Fact::Varying,
    }
}

/// What a comparison of two known values gives. Null is equal to null.
pub(crate) fn icmp_fact(pred: Pred, ty: Scalar, a: Known, b: Known) -> Fact
    ensures { result ≡ of_icmp pred ty a b }
{
    match (a, b) {
        (Known::Num(a), Known::Num(b)) => bit_fact(icmp(pred, ty, a, b)),
        (Known::Num(_), Known::Unknown) => Fact::Varying,
        (Known::Num(_), Known::Null) => Fact::Varying,
        (Known::Null, Known::Null) => bit_fact(holds_of_equals(pred)),
        (Known::Null, Known::Unknown) => Fact::Varying,
        (Known::Null, Known::Num(_)) => Fact::Varying,
        (Known::Unknown, _) => Fact::Varying,
    }
}

/// What a cast of a known value gives.
pub(crate) fn cast_fact(op: CastOp, nneg: bool, from: Scalar, to: Scalar, a: Known) -> Fact
    ensures { result ≡ of_cast op nneg from to a }
{
    match a {
        Known::Num(a) => outcome_fact(cast(op, nneg, from, to, a)),
        Known::Unknown => Fact::Varying,
        Known::Null => Fact::Varying,
    }
}

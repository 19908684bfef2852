//! Shifts.
ghost use Rattle.std.specs.Prelude.{◌≡◌};
ghost use Rattle.int_ops.specs.Shifts.{shl_outcome, lshr_outcome, ashr_outcome};

use crate::Outcome;
use crate::wrapping::unless_wrapped;
use ir_types::{Flags, Scalar};

pub fn shl(flags: Flags, width: Scalar, a: u64, by: u64) -> Outcome
    ensures { result ≡ shl_outcome flags width a by }
{
    if by >= width.width() as u64 {
        return Outcome::Poison;
    }
    let shifted = width.truncated(a << by);
    let comes_back = shifted >> by == a;
    let comes_back_signed = width.signed(shifted) >> by == width.signed(a);
    unless_wrapped(flags, comes_back, comes_back_signed, shifted)
}

pub fn lshr(exact: bool, width: Scalar, a: u64, by: u64) -> Outcome
    ensures { result ≡ lshr_outcome exact width a by }
{
    if by >= width.width() as u64 {
        Outcome::Poison
    } else if exact && a % (1 << by) != 0 {
        Outcome::Poison
    } else {
        Outcome::Num(a >> by)
    }
}

pub fn ashr(exact: bool, width: Scalar, a: u64, by: u64) -> Outcome
    ensures { result ≡ ashr_outcome exact width a by }
{
    if by >= width.width() as u64 {
        Outcome::Poison
    } else if exact && a % (1 << by) != 0 {
        Outcome::Poison
    } else {
        Outcome::Num(width.from_signed(width.signed(a) >> by))
    }
}

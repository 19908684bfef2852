//! Sums, differences and products.
ghost use Rattle.std.specs.Prelude.{◌≡◌, false, IfSome, IfNone};
ghost use Rattle.ir_types.specs.Scalars.{is_number_of};
ghost use Rattle.int_ops.specs.Sums.{is_signed, add_outcome, sub_outcome, mul_outcome};

use crate::Outcome;
use crate::wrapping::unless_wrapped;
use ir_types::{Flags, Scalar};

/// Whether an unsigned result is in the range of the width. `None` is one that no u64 holds.
fn fits_unsigned(width: Scalar, unsigned: Option<u64>) -> bool
    ensures some { IfSome unsigned (λ n. result ≡ is_number_of width n) }
    ensures none { IfNone unsigned (result ≡ false) }
{
    match unsigned {
        Some(number) => width.holds(number),
        None => false,
    }
}

/// Whether a signed result is in the range of the width, so that it stands for itself. `None` is one that no i64 holds.
fn fits_signed(width: Scalar, signed: Option<i64>) -> bool
    ensures some { IfSome signed (λ z. result ≡ is_signed width z) }
    ensures none { IfNone signed (result ≡ false) }
{
    match signed {
        Some(value) => width.signed(width.from_signed(value)) == value,
        None => false,
    }
}

pub fn add(flags: Flags, width: Scalar, a: u64, b: u64) -> Outcome
    ensures { result ≡ add_outcome flags width a b }
{
    let unsigned = fits_unsigned(width, a.checked_add(b));
    let signed = fits_signed(width, width.signed(a).checked_add(width.signed(b)));
    unless_wrapped(flags, unsigned, signed, width.truncated(a.wrapping_add(b)))
}

pub fn sub(flags: Flags, width: Scalar, a: u64, b: u64) -> Outcome
    ensures { result ≡ sub_outcome flags width a b }
{
    let unsigned = fits_unsigned(width, a.checked_sub(b));
    let signed = fits_signed(width, width.signed(a).checked_sub(width.signed(b)));
    unless_wrapped(flags, unsigned, signed, width.truncated(a.wrapping_sub(b)))
}

pub fn mul(flags: Flags, width: Scalar, a: u64, b: u64) -> Outcome
    ensures { result ≡ mul_outcome flags width a b }
{
    let unsigned = fits_unsigned(width, a.checked_mul(b));
    let signed = fits_signed(width, width.signed(a).checked_mul(width.signed(b)));
    unless_wrapped(flags, unsigned, signed, width.truncated(a.wrapping_mul(b)))
}

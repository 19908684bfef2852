//! What `nuw` and `nsw` ask of a result.
ghost use Rattle.std.specs.Prelude.{◌≡◌, ◌&&◌};
ghost use Rattle.int_ops.specs.Outcomes.{implies, poison_unless};

use crate::Outcome;
use ir_types::Flags;

/// The number, or poison where `nuw` stands and the unsigned result doesn't fit, or `nsw` and the signed result doesn't.
pub fn unless_wrapped(flags: Flags, fits_unsigned: bool, fits_signed: bool, number: u64) -> Outcome
    ensures { result ≡ poison_unless (implies flags.nuw fits_unsigned && implies flags.nsw fits_signed) number }
{
    if (flags.nuw && !fits_unsigned) || (flags.nsw && !fits_signed) {
        Outcome::Poison
    } else {
        Outcome::Num(number)
    }
}

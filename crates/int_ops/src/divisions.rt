//! Quotients and remainders.
ghost use Rattle.std.specs.Prelude.{◌≡◌, IfOk, IfErr, int_div, int_rem};
ghost use Rattle.ir_types.specs.Scalars.{least_signed, signed_value};
ghost use Rattle.int_ops.specs.declared.outcome.Outcome.TheVariants.{Undefined};
ghost use Rattle.int_ops.specs.Divisions.{signed_division, udiv_outcome, urem_outcome, sdiv_outcome, srem_outcome};

use crate::{Cause, Outcome};
use ir_types::Scalar;

pub fn udiv(exact: bool, a: u64, b: u64) -> Outcome
    ensures { result ≡ udiv_outcome exact a b }
{
    if b == 0 {
        Outcome::Undefined(Cause::DivideByZero)
    } else if exact && a % b != 0 {
        Outcome::Poison
    } else {
        Outcome::Num(a / b)
    }
}

pub fn urem(a: u64, b: u64) -> Outcome
    ensures { result ≡ urem_outcome a b }
{
    if b == 0 {
        Outcome::Undefined(Cause::DivideByZero)
    } else {
        Outcome::Num(a % b)
    }
}

/// The least signed value of the width.
fn least_value(width: Scalar) -> i64
    ensures { result ≡ least_signed width }
{
    match width {
        Scalar::I1 => -1,
        Scalar::I8 => i8::MIN as i64,
        Scalar::I16 => i16::MIN as i64,
        Scalar::I32 => i32::MIN as i64,
        Scalar::I64 => i64::MIN,
        Scalar::Ptr => i64::MIN,
    }
}

/// What the division of signed values gives, rounded towards zero.
#[derive(Drop)]
struct Division {
    quotient: i64,
    remainder: i64,
}

/// The division of the signed values of two numbers, or why it is undefined.
fn divided(width: Scalar, a: u64, b: u64) -> Result<Division, Cause>
    ensures undefined { IfErr result (λ cause. (o : Outcome)
        → signed_division width (signed_value width a) (signed_value width b) o ≡ Undefined cause) }
    ensures defined { IfOk result (λ division. (o : Outcome)
        → signed_division width (signed_value width a) (signed_value width b) o ≡ o) }
    ensures quotient { IfOk result (λ division. division.quotient ≡ int_div (signed_value width a) (signed_value width b)) }
    ensures remainder { IfOk result (λ division. division.remainder ≡ int_rem (signed_value width a) (signed_value width b)) }
{
    let dividend = width.signed(a);
    let divisor = width.signed(b);
    if divisor == 0 {
        Err(Cause::DivideByZero)
    } else if dividend == least_value(width) && divisor == -1 {
        Err(Cause::DivideOverflow)
    } else {
        Ok(Division {
            quotient: dividend / divisor,
            remainder: dividend % divisor,
        })
    }
}

pub fn sdiv(exact: bool, width: Scalar, a: u64, b: u64) -> Outcome
    ensures { result ≡ sdiv_outcome exact width (signed_value width a) (signed_value width b) }
{
    match divided(width, a, b) {
        Ok(division) => {
            if exact && division.remainder != 0 {
                Outcome::Poison
            } else {
                Outcome::Num(width.from_signed(division.quotient))
            }
        }
        Err(cause) => Outcome::Undefined(cause),
    }
}

pub fn srem(width: Scalar, a: u64, b: u64) -> Outcome
    ensures { result ≡ srem_outcome width (signed_value width a) (signed_value width b) }
{
    match divided(width, a, b) {
        Ok(division) => Outcome::Num(width.from_signed(division.remainder)),
        Err(cause) => Outcome::Undefined(cause),
    }
}

//! Integers of a type, as they are written.
ghost use Rattle.std.specs.Prelude.{◌≡◌, ◌<◌, ◌≤◌, ◌+◌, ◌-◌, ◌*◌, ◌^◌, nat_lt, Some, None, IsTrue, IfSome, option_map, option_and_then, if◌then◌else◌};
ghost use Rattle.ir_syntax.specs.Suits.{is_number_of};
ghost use Rattle.ir_grammar.specs.Numbers.{number_of};
ghost use Rattle.ir_scope.specs.Integers.{width, number, truth, integer_of, extended};
ghost use Rattle.ir_scope.specs.Mirrors.Halves.{half_of, negated, integer_by, number_below, word_number};

use ir_grammar::{Lexeme, Shape, Value};
use ir_types::Scalar;

/// The number with one more digit, where it is below 2^64.
fn with_digit(number: u64, digit: u8) -> Option<u64>
    ensures { result ≡ number_below (10 * number + (digit - 48)) }
{
    number
        .checked_mul(10)?
        .checked_add(u64::from(digit.saturating_sub(b'0')))
}

/// The number that decimal digits stand for, where it is below 2^64.
pub(crate) fn number_of(digits: &[u8]) -> Option<u64>
    ensures { result ≡ number_below (number_of digits.now) }
{
    let mut number = 0;
    for digit in digits {
        match with_digit(number, *digit) {
            Some(more) => number = more,
            None => return None,
        }
    }
    Some(number)
}

/// Half of the number of integers of a type.
fn half(ty: Scalar) -> Option<u64>
    ensures value { result ≡ half_of ty }
    ensures below { IfSome result (λ half. (0 < half) × (half ≤ 2 ^ 63)) }
{
    match ty {
        Scalar::I1 => Some(1),
        Scalar::I8 => Some(0x80),
        Scalar::I16 => Some(0x8000),
        Scalar::I32 => Some(0x8000_0000),
        Scalar::I64 => Some(0x8000_0000_0000_0000),
        Scalar::Ptr => None,
    }
}

/// The integer below 0, or 0, modulo 2 * `half`, where it is at least -`half`.
fn negated(half: u64, number: u64) -> Option<u64>
    requires some { 0 < half }
    requires fits { half ≤ 2 ^ 63 }
    ensures value { result ≡ negated half number }
    ensures below { IfSome result (λ n. n < 2 * half) }
{
    if number > half {
        None
    } else if number == 0 {
        Some(0)
    } else {
        Some(half - number + half)
    }
}

/// The integer from -`half` to 2 * `half` - 1, modulo 2 * `half`.
fn integer(half: u64, text: &[u8]) -> Option<u64>
    requires some { 0 < half }
    requires fits { half ≤ 2 ^ 63 }
    ensures value { result ≡ integer_by half text.now }
    ensures below { IfSome result (λ n. n < 2 * half) }
{
    match text {
        [] => None,
        [b'-', digits @ ..] => {
            let number = number_of(digits)?;
            negated(half, number)
        }
        digits => {
            let number = number_of(digits)?;
            if number / 2 < half {
                Some(number)
            } else {
                None
            }
        }
    }
}

/// The integer of a type that a lexeme writes: decimal digits, with or without `-` before them, from -2^(w-1) to 2^w - 1, modulo
/// 2^w; `true` or `false` of `i1`; `zeroinitializer`. `None` comes exactly where the lexeme isn't one of these, or the type has
/// no such integer. LLVM's Language Reference, "Simple Constants", has the words.
pub fn read_number(ty: Scalar, lexeme: &Lexeme) -> Option<u64>
    ensures value { result ≡ number ty (lexeme.now.shape, lexeme.now.text.now) }
    ensures suits { IfSome result (λ n. IsTrue (is_number_of ty n)) }
    ensures below { IfSome result (λ n. IfSome (width ty) (λ w. n < 2 ^ w)) }
{
    match lexeme.shape {
        Shape::Int(_) => integer(half(ty)?, lexeme.text),
        Shape::Value(value) => word_number(ty, value),
        _ => None,
    }
}

/// The integer of a type that a word stands for.
fn word_number(ty: Scalar, word: Value) -> Option<u64>
    ensures value { result ≡ word_number ty word }
{
    match word {
        Value::True => truth(ty, 1),
        Value::False => truth(ty, 0),
        Value::Zero => half(ty).map(|_| 0),
        _ => None,
    }
}

/// The number, where the type is `i1`.
fn truth(ty: Scalar, number: u64) -> Option<u64>
    ensures { result ≡ truth ty number }
{
    match ty {
        Scalar::I1 => Some(number),
        _ => None,
    }
}

/// The number of 64 bits that has the same sign and the same low bits.
pub fn extend(ty: Scalar, number: u64) -> u64
    requires { IfSome (width ty) (λ w. number < 2 ^ w) }
    ensures { result ≡ extended (width ty) number }
{
    match half(ty) {
        Some(half) => {
            if number < half {
                number
            } else {
                number + (u64::MAX - (half - 1) - half)
            }
        }
        None => number,
    }
}

//! Decimal digits, and powers of two.
ghost use Rattle.std.specs.Prelude.{◌≡◌, ◌^◌, ◌≤◌, min};
ghost use Rattle.ir_grammar.specs.Numbers.{number_of, below_limit, exponent_of, digits_shape, unsigned_shape};

use crate::shape::Digits;

/// 2^64.
const LIMIT: u128 = 18446744073709551616;

/// What the digits stand for, and 2^64 where that is less.
fn capped_number(digits: &[u8]) -> u128
    ensures value { result ≡ min (number_of digits.now) (2 ^ 64) }
    ensures bound { result ≤ 2 ^ 64 }
{
    let mut number: u128 = 0;
    for digit in digits {
        number = (10 * number + u128::from(digit.saturating_sub(b'0'))).min(LIMIT);
    }
    number
}

/// The number that decimal digits stand for, however many they are. `None` where it is 2^64 or more.
pub fn number_of(digits: &[u8]) -> Option<u64>
    ensures { result ≡ below_limit (number_of digits.now) }
{
    let number = capped_number(digits);
    if number < LIMIT {
        Some(number as u64)
    } else {
        None
    }
}

/// The exponent of a power of two from 1 to 2^32. `None` for any other number.
#[tactic(auto, unfolding(crate::specs::Numbers::exponent_of))]
pub fn exponent_of(number: u64) -> Option<u8>
    ensures { result ≡ exponent_of number }
{
    match number {
        1 => Some(0),
        2 => Some(1),
        4 => Some(2),
        8 => Some(3),
        16 => Some(4),
        32 => Some(5),
        64 => Some(6),
        128 => Some(7),
        256 => Some(8),
        512 => Some(9),
        1024 => Some(10),
        2048 => Some(11),
        4096 => Some(12),
        8192 => Some(13),
        16384 => Some(14),
        32768 => Some(15),
        65536 => Some(16),
        131072 => Some(17),
        262144 => Some(18),
        524288 => Some(19),
        1048576 => Some(20),
        2097152 => Some(21),
        4194304 => Some(22),
        8388608 => Some(23),
        16777216 => Some(24),
        33554432 => Some(25),
        67108864 => Some(26),
        134217728 => Some(27),
        268435456 => Some(28),
        536870912 => Some(29),
        1073741824 => Some(30),
        2147483648 => Some(31),
        4294967296 => Some(32),
        _ => None,
    }
}

/// What kind of integer this is: one with a sign is neither a power nor a count.
pub fn digits_shape(text: &[u8]) -> Digits
    ensures { result ≡ digits_shape text.now }
{
    match text {
        [] | [b'-', ..] => Digits::Other,
        _ => match number_of(text) {
            Some(number) => unsigned_shape(number),
            None => Digits::Other,
        },
    }
}

/// What kind of integer a number below 2^64 is.
fn unsigned_shape(number: u64) -> Digits
    ensures { result ≡ unsigned_shape number }
{
    if exponent_of(number).is_some() {
        Digits::Power
    } else {
        Digits::Count
    }
}

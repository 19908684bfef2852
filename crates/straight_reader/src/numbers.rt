//! Integers of 32 bits, as they are written.
ghost use Rattle.std.specs.Prelude.{◌≡◌, ◌^◌, ◌≤◌, min};
ghost use Rattle.straight_form.specs.Numbers.{number_of_digits, integer_of};

/// 2^32.
const MODULUS: u64 = 4294967296;

/// What the digits stand for, and 2^32 where that is less.
fn number_of_digits(digits: &[u8]) -> u64
    ensures value { result ≡ min (number_of_digits digits.now) (2 ^ 32) }
    ensures bound { result ≤ 2 ^ 32 }
{
    let mut number: u64 = 0;
    for digit in digits {
        number = (10 * number + u64::from(digit.saturating_sub(b'0'))).min(MODULUS);
    }
    number
}

/// The integer from -2^31 to 2^32 - 1 that is written so, modulo 2^32.
pub fn integer_of(text: &[u8]) -> Option<u64>
    ensures { result ≡ integer_of text.now }
{
    match text {
        [] => None,
        [b'-', digits @ ..] => {
            let number = number_of_digits(digits);
            if number <= MODULUS / 2 {
                Some((MODULUS - number) % MODULUS)
            } else {
                None
            }
        }
        digits => {
            let number = number_of_digits(digits);
            if number < MODULUS { Some(number) } else { None }
        }
    }
}

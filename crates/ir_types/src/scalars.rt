//! Widths of scalar types, and the numbers of the integer types.
ghost use Rattle.std.specs.Prelude.{◌≡◌, ◌↔◌, ◌^◌, ◌-◌, ◌%◌, ◌<◌, ◌≤◌, ◌≤ℤ◌, ◌+◌, ◌-ℤ◌, pos, nat_lt, if◌then◌else◌, IsTrue};
ghost use Rattle.ir_types.specs.Scalars.{width, IsInteger, is_number_of, number_modulo, signed_of, signed_value, least_signed, greatest_signed, integer_modulo};

use crate::Scalar;

/// The signed value of a number below twice `half`, where half of the numbers stand for negative values.
fn sign_extended(number: u64, half: u64) -> i64
    requires narrow { half ≤ 2 ^ 31 }
    requires below { number < half + half }
    ensures value { result ≡ (if nat_lt number half then pos number else (pos number -ℤ pos (half + half))) }
{
    if number < half {
        number as i64
    } else {
        number as i64 - (half + half) as i64
    }
}

impl Scalar {
    /// How many bits a value has: 1, 8, 16, 32 or 64, and 64 of a pointer.
    pub fn width(self) -> u32
        ensures { result ≡ width self }
    {
        match self {
            Scalar::I1 => 1,
            Scalar::I8 => 8,
            Scalar::I16 => 16,
            Scalar::I32 => 32,
            Scalar::I64 => 64,
            Scalar::Ptr => 64,
        }
    }

    /// Whether the type is an integer type, and no pointer.
    pub fn is_integer(self) -> bool
        ensures { IsTrue result ↔ IsInteger self }
    {
        match self {
            Scalar::I1 => true,
            Scalar::I8 => true,
            Scalar::I16 => true,
            Scalar::I32 => true,
            Scalar::I64 => true,
            Scalar::Ptr => false,
        }
    }

    /// Whether the number is one of the integer type, which are those below 2^w. A pointer holds none.
    pub fn holds(self, number: u64) -> bool
        ensures value { result ≡ is_number_of self number }
        ensures below { IsTrue result ↔ (IsInteger self × (number < 2 ^ width self)) }
    {
        match self {
            Scalar::I1 => number < 2,
            Scalar::I8 => number < 256,
            Scalar::I16 => number < 65536,
            Scalar::I32 => number < 4294967296,
            Scalar::I64 => true,
            Scalar::Ptr => false,
        }
    }

    /// The number modulo 2^w: its lowest w bits.
    pub fn truncated(self, number: u64) -> u64
        ensures value { result ≡ number_modulo self number }
        ensures below { result < 2 ^ width self }
    {
        match self {
            Scalar::I1 => number % 2,
            Scalar::I8 => number % 256,
            Scalar::I16 => number % 65536,
            Scalar::I32 => number % 4294967296,
            Scalar::I64 => number,
            Scalar::Ptr => number,
        }
    }

    /// The signed value that the lowest w bits of the number stand for in two's complement. That of a pointer is of
    /// 64 bits.
    pub fn signed(self, number: u64) -> i64
        ensures value { result ≡ signed_value self number }
        ensures least { least_signed self ≤ℤ result }
        ensures greatest { result ≤ℤ greatest_signed self }
        ensures inverse { integer_modulo self result ≡ number_modulo self number }
    {
        match self {
            Scalar::I1 => sign_extended(number % 2, 1),
            Scalar::I8 => sign_extended(number % 256, 128),
            Scalar::I16 => sign_extended(number % 65536, 32768),
            Scalar::I32 => sign_extended(number % 4294967296, 2147483648),
            Scalar::I64 => number.cast_signed(),
            Scalar::Ptr => number.cast_signed(),
        }
    }

    /// The number modulo 2^w of a signed value, which stands for it in two's complement: -1 is 2^w - 1.
    pub fn from_signed(self, value: i64) -> u64
        ensures value { result ≡ integer_modulo self value }
        ensures below { result < 2 ^ width self }
        ensures inverse { least_signed self ≤ℤ value → value ≤ℤ greatest_signed self → signed_value self result ≡ value }
    {
        self.truncated(value.cast_unsigned())
    }
}

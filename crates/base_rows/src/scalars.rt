//! Widths, numbers and signed values of scalar types.
use crate::failed::Failed;
use ir_types::Scalar;

/// The scalar types.
const SCALARS: [Scalar; 6] = [
    Scalar::I1,
    Scalar::I8,
    Scalar::I16,
    Scalar::I32,
    Scalar::I64,
    Scalar::Ptr,
];

/// Numbers beside half of 2^w and 2^w of each width.
const NUMBERS: [u64; 17] = [
    0,
    1,
    2,
    127,
    128,
    255,
    256,
    32767,
    32768,
    65535,
    65536,
    2147483647,
    2147483648,
    4294967295,
    4294967296,
    9223372036854775808,
    18446744073709551615,
];

/// Signed values beside the least and the greatest of each width.
const VALUES: [i64; 8] = [
    0,
    1,
    -1,
    -128,
    127,
    -2147483648,
    2147483647,
    -9223372036854775808,
];

pub fn print_rows<R: Print>(rt: &R) -> Result<(), Failed> {
    for scalar in SCALARS {
        let width = scalar.width();
        let integer = scalar.is_integer();
        println!(rt; "{scalar:?}: width {width}, integer {integer}")?;
        print_numbers(rt, scalar)?;
        print_values(rt, scalar)?;
    }
    Ok(())
}

fn print_numbers<R: Print>(rt: &R, scalar: Scalar) -> Result<(), Failed> {
    for number in NUMBERS {
        let holds = scalar.holds(number);
        let truncated = scalar.truncated(number);
        let signed = scalar.signed(number);
        println!(rt; "{scalar:?} {number}: holds {holds}, modulo {truncated}, signed {signed}")?;
    }
    Ok(())
}

fn print_values<R: Print>(rt: &R, scalar: Scalar) -> Result<(), Failed> {
    for value in VALUES {
        let number = scalar.from_signed(value);
        println!(rt; "{scalar:?} of {value}: {number}")?;
    }
    Ok(())
}

//! The shapes of functions, and what is known of the arguments of an entry.
ghost use Rattle.std.specs.Prelude.{◌≡◌, ◌≢◌, ◌↔◌, ◌-◌, ◌^◌, ◌≤ℤ◌, pos, length, IsTrue, IfOk, MatchOption, All};
ghost use Rattle.std.specs.List.{AllZip};
ghost use Rattle.ir_types.specs.Scalars.{integer_modulo, least_signed, width};
ghost use Rattle.ir_types.specs.declared.scalar.Scalar.TheVariants.{Ptr};
ghost use Rattle.ir_syntax.specs.Refusals.{HasPlainShape, IsArgumentOf, FitsEntry};
ghost use Rattle.ir_syntax.specs.Programs.{argument_of as known_of, arguments_of as known_of_all};

use ir_syntax::{Func, Param};
use ir_types::{Known, List, OutOfMemory, Scalar};
use std::alloc::Global;

/// The least number that an argument may be, which is -2^(w-1).
fn least_argument(ty: Scalar) -> i128
    ensures { result ≡ least_signed ty }
{
    match ty {
        Scalar::I1 => -1,
        Scalar::I8 => -128,
        Scalar::I16 => -32768,
        Scalar::I32 => -2147483648,
        Scalar::I64 => -9223372036854775808,
        Scalar::Ptr => -9223372036854775808,
    }
}

/// The greatest number that an argument may be, which is 2^w - 1.
fn greatest_argument(ty: Scalar) -> i128
    ensures { result ≡ pos (2 ^ width ty - 1) }
{
    match ty {
        Scalar::I1 => 1,
        Scalar::I8 => 255,
        Scalar::I16 => 65535,
        Scalar::I32 => 4294967295,
        Scalar::I64 => 18446744073709551615,
        Scalar::Ptr => 18446744073709551615,
    }
}

/// Whether an argument that is known lies in -2^(w-1) to 2^w - 1 for the width w of its parameter.
fn is_argument_of(param: Param, arg: Option<i128>) -> bool
    ensures { IsTrue result ↔ IsArgumentOf param arg }
{
    match arg {
        Some(number) => {
            least_argument(param.ty) <= number && number <= greatest_argument(param.ty)
        }
        None => true,
    }
}

/// Whether there is one argument for each parameter, and each fits.
fn are_arguments_of(params: &[Param], args: &[Option<i128>]) -> bool
    ensures { IsTrue result ↔ AllZip IsArgumentOf params.now args.now }
{
    if params.len() != args.len() {
        return false;
    }
    for (i, param) in params.iter().enumerate() {
        if !is_argument_of(*param, args[i]) {
            return false;
        }
    }
    true
}

/// Whether no parameter is a pointer.
fn are_plain(params: &[Param]) -> bool
    ensures { IsTrue result ↔ All (λ param. param.ty ≢ Ptr) params.now }
{
    for param in params {
        if !param.ty.is_integer() {
            return false;
        }
    }
    true
}

/// Whether neither a parameter nor the result is a pointer.
pub(crate) fn has_plain_shape(func: &Func) -> bool
    ensures { IsTrue result ↔ HasPlainShape func.now }
{
    let returns_plain = match func.returns {
        Some(ty) => ty.is_integer(),
        None => true,
    };
    returns_plain && are_plain(func.params.as_slice())
}

/// Whether the function has a plain shape, and there is one argument of its type for each parameter.
pub(crate) fn fits_entry(func: &Func, args: &[Option<i128>]) -> bool
    ensures { IsTrue result ↔ FitsEntry args.now func.now }
{
    has_plain_shape(func) && are_arguments_of(func.params.as_slice(), args)
}

/// What is known of the arguments of a function that is entered with these: of each integer its number modulo 2^w. `None`
/// comes where they don't fit: a parameter or the result is a pointer, there isn't one argument for each parameter, or one
/// isn't from -2^(w-1) to 2^w - 1. The error is want of memory.
pub fn entry_arguments(
    alloc: Global,
    func: &Func,
    args: &[Option<i128>],
) -> Result<Option<List<Known>>, OutOfMemory>
    ensures { IfOk result (λ found. MatchOption found (FitsEntry args.now func.now → ⊥) (λ known. FitsEntry args.now func.now × (known ≡ known_of_all func.now.params args.now))) }
{
    if !fits_entry(func, args) {
        return Ok(None);
    }
    Ok(Some(arguments_of(alloc, func.params.as_slice(), args)?))
}

/// The number modulo 2^w.
fn number_of(ty: Scalar, number: i128) -> u64
    requires least { least_signed ty ≤ℤ number }
    requires greatest { number ≤ℤ pos (2 ^ width ty - 1) }
    ensures { result ≡ integer_modulo ty number }
{
    if number < 0 {
        ty.from_signed(number as i64)
    } else {
        ty.truncated(number as u64)
    }
}

/// What is known of an argument.
fn argument_of(param: Param, arg: Option<i128>) -> Known
    requires { IsArgumentOf param arg }
    ensures { result ≡ known_of param arg }
{
    match arg {
        Some(number) => Known::Num(number_of(param.ty, number)),
        None => Known::Unknown,
    }
}

/// What is known of the arguments of these parameters.
pub(crate) fn arguments_of(
    alloc: Global,
    params: &[Param],
    args: &[Option<i128>],
) -> Result<List<Known>, OutOfMemory>
    requires long { length params.now ≡ length args.now }
    requires fit { AllZip IsArgumentOf params.now args.now }
    ensures { IfOk result (λ known. known ≡ known_of_all params.now args.now) }
{
    let mut known = List::new(alloc);
    for (i, param) in params.iter().enumerate() {
        known.push(argument_of(*param, args[i]))?;
    }
    Ok(known)
}

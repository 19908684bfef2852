//! Names that are counted.
ghost use Rattle.std.specs.Prelude.{◌≡◌, IfOk};
ghost use Rattle.std.specs.List.{list_all};
ghost use Rattle.std.specs.Char.{is_ascii_digit};
ghost use Rattle.std.specs.Fmt.{decimal};
ghost use Rattle.ir_lexer.specs.Spelled.{is_decimal};
ghost use Rattle.ir_locals.specs.Locals.{decimals};

use ir_types::{Bytes, OutOfMemory};
use std::alloc::Global;

fn are_digits(bytes: &[u8]) -> bool
    ensures { result ≡ list_all is_ascii_digit bytes.now }
{
    bytes.iter().all(|byte| byte.is_ascii_digit())
}

/// Whether a name is one or more decimal digits.
#[tactic(auto, unfolding(ir_lexer::specs::Spelled::is_decimal))]
pub fn is_decimal(name: &[u8]) -> bool
    ensures { result ≡ is_decimal name.now }
{
    match name {
        [] => false,
        [first, rest @ ..] => first.is_ascii_digit() && are_digits(rest),
    }
}

/// How many of the names are decimal.
pub fn decimals(names: &[Bytes]) -> usize
    ensures { result ≡ decimals names.now }
{
    names
        .iter()
        .filter(|name| is_decimal(name.as_slice()))
        .count()
}

/// A number in decimal digits, without leading zeros. The error is want of memory.
pub fn decimal_name(alloc: Global, number: usize) -> Result<Bytes, OutOfMemory>
    ensures { IfOk result (λ name. name ≡ decimal number) }
{
    let text = format!(in alloc; "{number}")?;
    Ok(Bytes::from_vec(text.into_bytes()))
}

//! What is known of an entry's arguments.
ghost use Rattle.std.specs.Prelude.{◌≡◌, Some, None, All, map, IfOk, MatchOption};
ghost use Rattle.occam_tool.specs.Manifests.{IsWord, known_arg};

use ir_types::{Known, OutOfMemory};
use sqlite_items::Items as List;
use std::alloc::Global;

/// Two to the power of 32.
const MODULUS: i128 = 4_294_967_296;

/// What is known of an argument, where it is unknown or an integer from -2^31 to 2^32 - 1.
fn known_argument(arg: Option<i128>) -> Option<Known>
    ensures { MatchOption result (IsWord arg → ⊥) (λ known. IsWord arg × (known ≡ known_arg arg)) }
{
    match arg {
        None => Some(Known::Unknown),
        Some(n) => {
            if n < -2_147_483_648 || n >= MODULUS {
                None
            } else if n < 0 {
                Some(Known::Num((n + MODULUS) as u64))
            } else {
                Some(Known::Num(n as u64))
            }
        }
    }
}

/// What is known of arguments, where each is unknown or such an integer.
pub fn known_arguments(
    alloc: Global,
    args: &[Option<i128>],
) -> Result<Option<List<Known>>, OutOfMemory>
    ensures { IfOk result (λ found. MatchOption found (All IsWord args.now → ⊥) (λ known. All IsWord args.now × (known ≡ map known_arg args.now))) }
{
    let mut known = List::new(alloc);
    for arg in args {
        match known_argument(*arg) {
            Some(value) => known.push(value)?,
            None => return Ok(None),
        }
    }
    Ok(Some(known))
}

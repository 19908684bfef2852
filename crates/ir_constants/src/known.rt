//! Types before the parts of arrays and structs, and names that are known to stand for them.
ghost use Rattle.std.specs.Prelude.{◌≡◌, ◌≤◌, length, IfOk, IfSome};
ghost use Rattle.ir_grammar.specs.Tokens.{seen};
ghost use Rattle.ir_scope.specs.Scopes.{type_among};
ghost use Rattle.ir_constants.specs.Mirrors.Known.{typed_at, IsKnown, bytes_of, front_name, are_one};

use ir_grammar::{Lexeme, Shape};
use ir_scope::{Scope, read_type, same_type};
use ir_types::{OutOfMemory, Ty};
use std::alloc::Global;

/// The name at the front, as it is written.
pub(crate) fn front_name<'a>(kept: &[Lexeme<'a>]) -> Option<&'a [u8]>
    ensures { bytes_of result ≡ front_name (seen kept.now) }
{
    match kept {
        [first, ..] => match first.shape {
            Shape::Local => Some(first.text),
            _ => None,
        },
        [] => None,
    }
}

/// Whether these are one name.
fn are_one(text: Option<&[u8]>, known: Option<&[u8]>) -> bool
    ensures { result ≡ are_one (bytes_of text.entry) (bytes_of known.entry) }
{
    match (text, known) {
        (Some(text), Some(name)) => text == name,
        (Some(_), None) => false,
        (None, _) => false,
    }
}

/// How many lexemes at the front spell this type, where it is written there. The known name stands for it, so a part
/// that begins with this name spares the comparison.
pub(crate) fn typed(
    alloc: Global,
    scope: &Scope,
    ty: &Ty,
    known: Option<&[u8]>,
    kept: &[Lexeme],
) -> Result<Option<usize>, OutOfMemory>
    requires { IsKnown (type_among scope.now.types) ty.now known }
    ensures exact { IfOk result (λ found. found ≡ typed_at (type_among scope.now.types) ty.now (seen kept.now)) }
    ensures taken { IfOk result (λ found. IfSome found (λ n. (1 ≤ n) × (n ≤ length kept.now))) }
{
    if are_one(front_name(kept), known) {
        return Ok(Some(1));
    }
    match read_type(alloc, scope, kept)? {
        Some((written, taken)) => {
            if same_type(ty, &written) {
                Ok(Some(taken))
            } else {
                Ok(None)
            }
        }
        None => Ok(None),
    }
}

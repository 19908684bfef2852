//! What texts of lexemes stand for.
ghost use Rattle.std.specs.Prelude.{◌≡◌, IfOk, drop};
ghost use Rattle.ir_lexer.specs.Texts.{name_of};
ghost use Rattle.ir_constants.specs.Constants.{symbol_at, text_bytes};

use ir_lexer::{Kind, Token, decode, undecoded};
use ir_scope::Scope;
use ir_types::{Bytes, OutOfMemory, is_name};
use std::alloc::Global;

/// The place of the symbol of this name: none, where it breaks the limits on names.
fn known(scope: &Scope, name: &[u8]) -> Option<usize>
    ensures { result ≡ symbol_at scope.now.symbols name.now }
{
    if is_name(name) {
        scope.lookup_symbol(name)
    } else {
        None
    }
}

/// The place of the symbol that `@name` names: none, where the name breaks the limits on names.
pub fn place_of(alloc: Global, scope: &Scope, text: &[u8]) -> Result<Option<usize>, OutOfMemory>
    ensures { IfOk result (λ found. found ≡ symbol_at scope.now.symbols (name_of (drop 1 text.now))) }
{
    let token = Token {
        kind: Kind::AtName,
        from: 0,
        to: text.len(),
    };
    match undecoded(text, token) {
        Some(name) => Ok(known(scope, name)),
        None => {
            let name = decode(alloc, text, token)?;
            Ok(known(scope, name.as_slice()))
        }
    }
}

/// The bytes of `c"text"`.
pub fn text_bytes(alloc: Global, text: &[u8]) -> Result<Bytes, OutOfMemory>
    ensures { IfOk result (λ bytes. bytes ≡ text_bytes text.now) }
{
    let token = Token {
        kind: Kind::CStr,
        from: 0,
        to: text.len(),
    };
    decode(alloc, text, token)
}

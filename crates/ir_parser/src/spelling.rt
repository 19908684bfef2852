//! Names as they are spelled.
ghost use Rattle.std.specs.Prelude.{◌≡◌, drop, IfOk};
ghost use Rattle.ir_lexer.specs.Texts.{name_of};

use ir_lexer::{Kind, Token, decode};
use ir_types::{Bytes, OutOfMemory};
use std::alloc::Global;

/// The name of `@name` or `%name`.
pub(crate) fn name(alloc: Global, text: &[u8]) -> Result<Bytes, OutOfMemory>
    ensures { IfOk result (λ name. name ≡ name_of (drop 1 text.now)) }
{
    let token = Token {
        kind: Kind::AtName,
        from: 0,
        to: text.len(),
    };
    decode(alloc, text, token)
}

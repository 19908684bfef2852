//! Named types, as they are written.
use ir_grammar::Lexeme;
use ir_types::Bytes;

/// A named type of a module, as `%name = type { i32, ptr }`: its name, without sign, quotes and escapes, and the kept
/// lexemes of what is written for it.
#[derive(Drop)]
pub struct NamedType<'a> {
    pub name: Bytes,
    pub written: &'a [Lexeme<'a>],
}

use ir_lexer::Kind;

/// A token with its text.
#[derive(Clone, Copy, Debug)]
pub struct Lexeme<'a> {
    pub kind: Kind,
    pub text: &'a [u8],
}

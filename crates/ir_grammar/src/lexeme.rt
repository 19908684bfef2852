//! Tokens that are kept.
use crate::shape::Shape;

/// A token that is kept: what counts of it for the grammar, and its text.
#[derive(Clone, Copy, Debug)]
pub struct Lexeme<'a> {
    pub shape: Shape,
    pub text: &'a [u8],
}

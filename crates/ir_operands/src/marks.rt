//! Marks of one lexeme, in front of what is kept, and what stands behind lexemes.
ghost use Rattle.std.specs.Prelude.{◌≡◌, ◌+◌, ◌≤◌, length, drop, IfSome};
ghost use Rattle.ir_grammar.specs.Tokens.{seen};
ghost use Rattle.ir_scope.specs.Runs.{begins_with};
ghost use Rattle.ir_constants.specs.Constants.{is_close_paren};
ghost use Rattle.ir_operands.specs.Marks.{ext_at, is_scalar, scalar_at, dots_at};

use ir_grammar::{Lexeme, Shape};
use ir_types::{Ext, Scalar};

/// What stands behind so many lexemes.
pub fn after<'a, 'b>(kept: &'a [Lexeme<'b>], count: usize) -> &'a [Lexeme<'b>]
    requires { count ≤ length kept.now }
    ensures rest { seen result.now ≡ drop count (seen kept.now) }
    ensures left { length result.now + count ≡ length kept.now }
{
    &kept[count..]
}

/// `signext` or `zeroext` in front, and how many lexemes that is.
pub fn ext(kept: &[Lexeme]) -> (Ext, usize)
    ensures exact { result ≡ ext_at (seen kept.now) }
    ensures within { result.1 ≤ length kept.now }
{
    match kept {
        [first, ..] => match first.shape {
            Shape::Ext(ext) => (ext, 1),
            _ => (Ext::Plain, 0),
        },
        [] => (Ext::Plain, 0),
    }
}

/// Whether a scalar stands in front.
pub fn begins_scalar(kept: &[Lexeme]) -> bool
    ensures { result ≡ begins_with is_scalar (seen kept.now) }
{
    match kept {
        [first, ..] => match first.shape {
            Shape::Scalar(_) => true,
            _ => false,
        },
        [] => false,
    }
}

/// The scalar in front.
pub fn scalar(kept: &[Lexeme]) -> Option<(Scalar, usize)>
    ensures exact { result ≡ scalar_at (seen kept.now) }
    ensures within { IfSome result (λ f. (1 ≤ f.1) × (f.1 ≤ length kept.now)) }
{
    match kept {
        [first, ..] => match first.shape {
            Shape::Scalar(ty) => Some((ty, 1)),
            _ => None,
        },
        [] => None,
    }
}

/// Whether `...` stands in front, and how many lexemes that is.
pub fn dots(kept: &[Lexeme]) -> (bool, usize)
    ensures exact { result ≡ dots_at (seen kept.now) }
    ensures within { result.1 ≤ length kept.now }
{
    match kept {
        [first, ..] => match first.shape {
            Shape::Dots => (true, 1),
            _ => (false, 0),
        },
        [] => (false, 0),
    }
}

/// Whether a closing parenthesis stands in front.
pub fn closes_paren(kept: &[Lexeme]) -> bool
    ensures { result ≡ begins_with is_close_paren (seen kept.now) }
{
    match kept {
        [first, ..] => match first.shape {
            Shape::CloseParen => true,
            _ => false,
        },
        [] => false,
    }
}

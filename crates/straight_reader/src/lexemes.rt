//! Tokens with their texts.
ghost use Rattle.std.specs.Prelude.{◌≡◌, IfOk};
ghost use Rattle.std.specs.List.{All};
ghost use Rattle.ir_lexer.specs.Tokens.{IsTokenIn};
ghost use Rattle.straight_form.specs.Spelled.{seen, pieces_of};

use ir_lexer::Token;
use ir_types::OutOfMemory;
use std::alloc::Global;
use straight_form::Lexeme;

/// The tokens of a text, each with its own text.
pub fn lexemes<'a>(
    alloc: Global,
    text: &'a [u8],
    tokens: &[Token],
) -> Result<Vec<Lexeme<'a>>, OutOfMemory>
    requires { All (IsTokenIn text.now) tokens.now }
    ensures { IfOk result (λ all. seen all.items ≡ pieces_of text.now tokens.now) }
{
    let mut lexemes = Vec::new(alloc);
    for token in tokens {
        lexemes.push(Lexeme {
            kind: token.kind,
            text: &text[token.from..token.to],
        })?;
    }
    Ok(lexemes)
}

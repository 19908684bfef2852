//! Which kept tokens count results, and which begin blocks.
ghost use Rattle.std.specs.Prelude.{◌≡◌};
ghost use Rattle.ir_grammar.specs.Tokens.{seen};
ghost use Rattle.ir_locals.specs.Locals.{has_result, is_label, begins_labelled, result_name};
ghost use Rattle.ir_locals.specs.Adding.{waiting_name};

use ir_grammar::{Lexeme, Shape};

/// Whether a token of this shape stands for an instruction that has a result.
pub fn has_result(shape: Shape) -> bool
    ensures { result ≡ has_result shape }
{
    matches!(
        shape,
        Shape::Bin(_)
            | Shape::Cast(_)
            | Shape::Icmp
            | Shape::Select
            | Shape::Phi
            | Shape::Alloca
            | Shape::Load
            | Shape::Gep
            | Shape::Returned(_)
    )
}

pub fn is_label(shape: Shape) -> bool
    ensures { result ≡ is_label shape }
{
    matches!(shape, Shape::Label)
}

/// Whether the first block has a label.
pub fn begins_labelled(kept: &[Lexeme]) -> bool
    ensures { result ≡ begins_labelled (seen kept.now) }
{
    match kept {
        [first, ..] => is_label(first.shape),
        [] => false,
    }
}

/// The text that waits for its result behind a token without a result.
pub fn waiting<'a>(lexeme: &Lexeme<'a>, before: Option<&'a [u8]>) -> Option<&'a [u8]>
    ensures { waiting_name result ≡ result_name lexeme.now.shape lexeme.now.text.now (waiting_name before.entry) }
{
    match lexeme.shape {
        Shape::Result => Some(lexeme.text),
        _ => before,
    }
}

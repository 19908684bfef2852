//! Results and blocks, counted in what is kept.
ghost use Rattle.std.specs.Prelude.{◌≡◌, ◌≤◌, length, nat_eq};
ghost use Rattle.ir_grammar.specs.Tokens.{seen};
ghost use Rattle.ir_locals.specs.Locals.{has_result, is_label, begins_labelled};
ghost use Rattle.ir_body.specs.Bodies.{results_in, blocks_in, is_counted};
ghost use Rattle.ir_body.specs.Mirrors.Naming.{labels_in};
ghost use Rattle.ir_syntax.specs.Results.{results};

use ir_grammar::{Lexeme, Shape};
use ir_syntax::Body;

/// Whether a lexeme stands once in each phi and each instruction that has a result.
fn has_result(shape: Shape) -> bool
    ensures { result ≡ has_result shape }
{
    match shape {
        Shape::Bin(_)
        | Shape::Cast(_)
        | Shape::Icmp
        | Shape::Select
        | Shape::Phi
        | Shape::Alloca
        | Shape::Load
        | Shape::Gep
        | Shape::Returned(_) => true,
        _ => false,
    }
}

/// Whether a lexeme is the label of a block.
fn is_label(shape: Shape) -> bool
    ensures { result ≡ is_label shape }
{
    matches!(shape, Shape::Label)
}

/// How many results lexemes of blocks have.
fn results_in(kept: &[Lexeme]) -> usize
    ensures value { result ≡ results_in (seen kept.now) }
    ensures within { result ≤ length kept.now }
{
    kept.iter()
        .filter(|lexeme| has_result(lexeme.shape))
        .count()
}

/// How many labels stand among lexemes.
fn labels_in(kept: &[Lexeme]) -> usize
    ensures value { result ≡ labels_in (seen kept.now) }
    ensures within { result ≤ length kept.now }
{
    kept.iter().filter(|lexeme| is_label(lexeme.shape)).count()
}

/// Whether a label stands first.
fn begins_labelled(kept: &[Lexeme]) -> bool
    ensures { result ≡ begins_labelled (seen kept.now) }
{
    match kept {
        [first, ..] => is_label(first.shape),
        [] => false,
    }
}

/// Whether the lexemes begin so many blocks: the first may have no label.
fn are_blocks_in(kept: &[Lexeme], blocks: usize) -> bool
    ensures { result ≡ nat_eq (blocks_in (seen kept.now)) blocks }
{
    let labels = labels_in(kept);
    if begins_labelled(kept) {
        labels == blocks
    } else {
        blocks > 0 && labels == blocks - 1
    }
}

/// Whether a body has so many results.
fn has_results(body: &Body, count: usize) -> bool
    ensures { result ≡ nat_eq count (length (results body.now)) }
{
    body.reg_type(count).is_none() && (count == 0 || body.reg_type(count - 1).is_some())
}

/// Whether a body has as many results and blocks as the lexemes.
pub(crate) fn is_counted(kept: &[Lexeme], body: &Body) -> bool
    ensures { result ≡ is_counted (seen kept.now) body.now }
{
    has_results(body, results_in(kept)) && are_blocks_in(kept, body.blocks.len())
}

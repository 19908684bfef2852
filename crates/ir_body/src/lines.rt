//! The lines of a body: labels, phis, instructions and terminators.
ghost use Rattle.std.specs.Prelude.{◌≡◌, ◌+◌, ◌≤◌, length, IfOk, IfSome};
ghost use Rattle.ir_grammar.specs.Tokens.{seen};
ghost use Rattle.ir_scope.specs.Runs.{begins_with};
ghost use Rattle.ir_scope.specs.Types.{is_close_brace};
ghost use Rattle.ir_operands.specs.Mirrors.Naming.{naming};
ghost use Rattle.ir_body.specs.Mirrors.Naming.{line_of, lines_seen};
ghost use Rattle.ir_body.specs.Lines.{inst_line, dropped_or, term_line, verb_at, line_at};
ghost use Rattle.ir_body.specs.Mirrors.Shaped.{begins_line, call_line, phi_line, named_line_at, plain_line_at, shaped_line_at, first_shape};

use ir_calls::call;
use ir_grammar::{Lexeme, Shape};
use ir_insts::{alloca, bin, cast, gep, icmp, load, select, store};
use ir_operands::{Names, after};
use ir_syntax::{Inst, Phi, Term};
use ir_terms::{br, phi, ret, switch};
use ir_types::OutOfMemory;
use std::alloc::Global;

/// A line of a body.
#[derive(Debug, Drop)]
pub(crate) enum Line {
    /// The label of a block.
    Labelled,
    OfPhi(Phi),
    OfInst(Inst),
    /// An instruction of debug information.
    Dropped,
    /// A terminator, which ends its block.
    Ends(Term),
}

/// Whether a line stands in front: anything but a closing brace.
pub(crate) fn begins_line(kept: &[Lexeme]) -> bool
    ensures { result ≡ begins_with begins_line (seen kept.now) }
{
    match kept {
        [first, ..] => match first.shape {
            Shape::CloseBrace => false,
            _ => true,
        },
        [] => false,
    }
}

/// Whether a closing brace stands in front.
pub(crate) fn closes_brace(kept: &[Lexeme]) -> bool
    ensures { result ≡ begins_with is_close_brace (seen kept.now) }
{
    match kept {
        [first, ..] => match first.shape {
            Shape::CloseBrace => true,
            _ => false,
        },
        [] => false,
    }
}

/// The line of an instruction.
fn inst_line(found: Option<(Inst, usize)>) -> Option<(Line, usize)>
    ensures exact { lines_seen result ≡ inst_line found }
    ensures same { IfSome result (λ f. IfSome found (λ g. f.1 ≡ g.1)) }
{
    match found {
        Some((inst, count)) => Some((Line::OfInst(inst), count)),
        None => None,
    }
}

/// The line of a call, or of one that is dropped.
fn dropped_or(call: Option<Inst>) -> Line
    ensures { line_of result ≡ dropped_or call }
{
    match call {
        Some(inst) => Line::OfInst(inst),
        None => Line::Dropped,
    }
}

/// The line of a call, which may be one that is dropped.
fn call_line(found: Option<(Option<Inst>, usize)>) -> Option<(Line, usize)>
    ensures exact { lines_seen result ≡ call_line found }
    ensures same { IfSome result (λ f. IfSome found (λ g. f.1 ≡ g.1)) }
{
    match found {
        Some((call, count)) => Some((dropped_or(call), count)),
        None => None,
    }
}

/// The line of a phi.
fn phi_line(found: Option<(Phi, usize)>) -> Option<(Line, usize)>
    ensures exact { lines_seen result ≡ phi_line found }
    ensures same { IfSome result (λ f. IfSome found (λ g. f.1 ≡ g.1)) }
{
    match found {
        Some((phi, count)) => Some((Line::OfPhi(phi), count)),
        None => None,
    }
}

/// The line of a terminator.
fn term_line(found: Option<(Term, usize)>) -> Option<(Line, usize)>
    ensures exact { lines_seen result ≡ term_line found }
    ensures same { IfSome result (λ f. IfSome found (λ g. f.1 ≡ g.1)) }
{
    match found {
        Some((term, count)) => Some((Line::Ends(term), count)),
        None => None,
    }
}

/// What stands behind the word of a line.
fn verb(
    alloc: Global,
    names: &Names,
    word: Shape,
    kept: &[Lexeme],
) -> Result<Option<(Line, usize)>, OutOfMemory>
    ensures exact { IfOk result (λ found. lines_seen found ≡ verb_at (naming names.now) word (seen kept.now)) }
    ensures within { IfOk result (λ found. IfSome found (λ f. f.1 ≤ length kept.now)) }
{
    match word {
        Shape::Bin(op) => Ok(inst_line(bin(alloc, names, op, kept)?)),
        Shape::Icmp => Ok(inst_line(icmp(alloc, names, kept)?)),
        Shape::Select => Ok(inst_line(select(alloc, names, kept)?)),
        Shape::Cast(op) => Ok(inst_line(cast(alloc, names, op, kept)?)),
        Shape::Alloca => Ok(inst_line(alloca(alloc, names, kept)?)),
        Shape::Load => Ok(inst_line(load(alloc, names, kept)?)),
        Shape::Store => Ok(inst_line(store(alloc, names, kept)?)),
        Shape::Gep => Ok(inst_line(gep(alloc, names, kept)?)),
        Shape::Call => Ok(call_line(call(alloc, names, kept)?)),
        Shape::Phi => Ok(phi_line(phi(alloc, names, kept)?)),
        Shape::Ret => Ok(term_line(ret(alloc, names, kept)?)),
        Shape::Br => Ok(term_line(br(alloc, names, kept)?)),
        Shape::Switch => Ok(term_line(switch(alloc, names, kept)?)),
        Shape::Unreachable => Ok(Some((Line::Ends(Term::Unreachable), 0))),
        _ => Ok(None),
    }
}

/// A line behind the name of its result.
fn named_line(
    alloc: Global,
    names: &Names,
    kept: &[Lexeme],
) -> Result<Option<(Line, usize)>, OutOfMemory>
    ensures exact { IfOk result (λ found. lines_seen found ≡ named_line_at (naming names.now) (seen kept.now)) }
    ensures within { IfOk result (λ found. IfSome found (λ f. (2 ≤ f.1) × (f.1 ≤ 1 + length kept.now))) }
{
    match kept {
        [word, rest @ ..] => match verb(alloc, names, word.shape, rest)? {
            Some((line, count)) => Ok(Some((line, 2 + count))),
            None => Ok(None),
        },
        [] => Ok(None),
    }
}

/// A line without a name, behind its word.
fn plain_line(
    alloc: Global,
    names: &Names,
    word: Shape,
    kept: &[Lexeme],
) -> Result<Option<(Line, usize)>, OutOfMemory>
    ensures exact { IfOk result (λ found. lines_seen found ≡ plain_line_at (naming names.now) word (seen kept.now)) }
    ensures within { IfOk result (λ found. IfSome found (λ f. (1 ≤ f.1) × (f.1 ≤ 1 + length kept.now))) }
{
    match verb(alloc, names, word, kept)? {
        Some((line, count)) => Ok(Some((line, 1 + count))),
        None => Ok(None),
    }
}

/// A label, or a line with or without the name of its result, behind its first lexeme.
fn shaped_line(
    alloc: Global,
    names: &Names,
    first: Shape,
    kept: &[Lexeme],
) -> Result<Option<(Line, usize)>, OutOfMemory>
    ensures exact { IfOk result (λ found. lines_seen found ≡ shaped_line_at (naming names.now) first (seen kept.now)) }
    ensures within { IfOk result (λ found. IfSome found (λ f. (1 ≤ f.1) × (f.1 ≤ 1 + length kept.now))) }
{
    match first {
        Shape::Label => Ok(Some((Line::Labelled, 1))),
        Shape::Result => named_line(alloc, names, kept),
        _ => plain_line(alloc, names, first, kept),
    }
}

/// The shape of the first lexeme.
fn first_shape(kept: &[Lexeme]) -> Option<Shape>
    ensures exact { result ≡ first_shape (seen kept.now) }
    ensures some { IfSome result (λ _. 1 ≤ length kept.now) }
{
    match kept {
        [first, ..] => Some(first.shape),
        [] => None,
    }
}

/// A label, or a line with or without the name of its result.
pub(crate) fn read_line(
    alloc: Global,
    names: &Names,
    kept: &[Lexeme],
) -> Result<Option<(Line, usize)>, OutOfMemory>
    ensures exact { IfOk result (λ found. lines_seen found ≡ line_at (naming names.now) (seen kept.now)) }
    ensures within { IfOk result (λ found. IfSome found (λ f. (1 ≤ f.1) × (f.1 ≤ length kept.now))) }
{
    match first_shape(kept) {
        Some(first) => shaped_line(alloc, names, first, after(kept, 1)),
        None => Ok(None),
    }
}

//! Bodies from tokens.
ghost use Rattle.std.specs.Prelude.{◌≡◌, ◌-◌, ◌≤◌, List, drop, length, IfOk, IfErr, IfSome, IfNone};
ghost use Rattle.ir_lexer.specs.Tokens.{texts_of};
ghost use Rattle.ir_grammar.specs.Tokens.{Kept, seen};
ghost use Rattle.ir_scope.specs.Scopes.{env_of};
ghost use Rattle.ir_body.specs.Bodies.{behind_brace, body_at, IsBodyOf, IsNoBody, SpellsBody};
ghost use Rattle.ir_body.specs.Faults.{IsBodyCause};

use crate::blocks::lined_body;
use ir_grammar::{Lexeme, Name, one_derivation, read_nonterminal};
use ir_lexer::Token;
use ir_locals::Locals;
use ir_operands::Names;
use ir_scope::Scope;
use ir_syntax::{Body, Func};
use ir_types::{Bytes, OutOfMemory};
use std::alloc::Global;

/// Why no body is read.
#[derive(Clone, Copy, Debug, PartialEq, Eq)]
pub enum BodyFault {
    /// The first tokens spell no body of the subset.
    NotInSubset,
    /// The allocator refused memory.
    OutOfMemory,
}

/// What stands behind the opening brace.
fn behind_brace<'a, 'b>(kept: &'a [Lexeme<'b>]) -> &'a [Lexeme<'b>]
    ensures { seen result.now ≡ behind_brace (seen kept.now) }
{
    match kept {
        [_, rest @ ..] => rest,
        [] => kept,
    }
}

/// The body that kept lexemes of a body stand for, from the opening brace on, in a function whose
/// parameters have these names.
///
/// Parameters, registers and blocks share one set of names, as the LLVM Language Reference Manual
/// says. It gives `None` where a name stands twice, is empty or longer than 4,096 bytes; where a
/// name that is used isn't defined, or stands for a block where an operand is wanted; where a type,
/// a constant or a call is beyond the limits of the subset; and where there are more than 65,535
/// blocks, or more than 1,048,576 phis, instructions and terminators. The error is want of memory.
pub fn resolve_body(
    alloc: Global,
    scope: &Scope,
    params: &[Bytes],
    kept: &[Lexeme],
) -> Result<Option<Body>, OutOfMemory>
    ensures { IfOk result (λ body. body ≡ body_at (env_of scope.now) params.now (seen kept.now)) }
{
    let lines = behind_brace(kept);
    match Locals::of(alloc, params, lines)? {
        Some(locals) => {
            let names = Names {
                scope,
                locals: &locals,
            };
            lined_body(alloc, &names, lines)
        }
        None => Ok(None),
    }
}

/// Reads the body that begins at a place of the tokens, of a function with this head and these
/// names of its parameters.
///
/// It gives the body, and the place of the first token behind its closing brace. `NotInSubset`
/// comes where the first tokens from the place on spell no body: by the grammar, by the names that
/// stand in it, or by a limit of the subset (see `resolve_body`). `OutOfMemory` comes where the
/// allocator refuses memory.
#[expect(unused_variables)]
pub fn read_body(
    alloc: Global,
    bytes: &[u8],
    tokens: &[Token],
    from: usize,
    head: &Func,
    names: &[Bytes],
    scope: &Scope,
) -> Result<(Body, usize), BodyFault>
    requires { length names.now ≡ length head.now.params }
    ensures read { IfOk result (λ f. SpellsBody (env_of scope.now) names.now (texts_of bytes.now (drop from tokens.now)) f.0 (f.1 - from) × (from ≤ f.1)) }
    ensures refused { IfErr result (λ fault. IsBodyCause (env_of scope.now) names.now (texts_of bytes.now (drop from tokens.now)) fault) }
{
    one_derivation();
    let (kept, place) = match read_nonterminal(alloc, bytes, tokens, from, Name::Body) {
        Ok(Some(found)) => found,
        Ok(None) => return Err(BodyFault::NotInSubset),
        Err(OutOfMemory) => return Err(BodyFault::OutOfMemory),
    };
    match resolve_body(alloc, scope, names, &kept) {
        Ok(Some(body)) => Ok((body, place)),
        Ok(None) => Err(BodyFault::NotInSubset),
        Err(OutOfMemory) => Err(BodyFault::OutOfMemory),
    }
}

/// The place after the body's closing brace, where the first tokens from a place on spell a body,
/// names, types of constants and limits left aside. The error is want of memory.
pub fn skip_body(
    alloc: Global,
    bytes: &[u8],
    tokens: &[Token],
    from: usize,
) -> Result<Option<usize>, OutOfMemory>
    ensures found { IfOk result (λ place. IfSome place (λ p. (from ≤ p) × ((kept : List Kept) × IsBodyOf (texts_of bytes.now (drop from tokens.now)) kept (p - from)))) }
    ensures none { IfOk result (λ place. IfNone place (IsNoBody (texts_of bytes.now (drop from tokens.now)))) }
{
    match read_nonterminal(alloc, bytes, tokens, from, Name::Body)? {
        Some((_, place)) => Ok(Some(place)),
        None => Ok(None),
    }
}

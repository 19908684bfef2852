//! The walk over tokens by the grammar.
ghost use Rattle.std.specs.Prelude.{◌≡◌, ◌∷◌, [], ◌++◌, ◌-◌, ◌≤◌, drop, length, IfOk, OnOk, IfSome, IfNone};
ghost use Rattle.std.specs.Option.{option_map};
ghost use Rattle.ir_lexer.specs.Tokens.{text_of, texts_of};
ghost use Rattle.ir_grammar.specs.declared.grammar.Item.TheVariants as item;
ghost use Rattle.ir_grammar.specs.Tokens.{opens_group, is_group, told, shape_before, returned, keeping, seen};
ghost use Rattle.ir_grammar.specs.Derives.{IsDerived, IsNotDerived};
ghost use Rattle.ir_grammar.specs.Mirrors.Walk.{walk};

use crate::grammar::{Item, Keep, Name};
use crate::lexeme::Lexeme;
use crate::shape::Shape;
use crate::shapes::shape_of;
use crate::stack::{Settled, may_end, settle};
use ir_lexer::{Kind, Token};
use ir_types::{List, OutOfMemory};
use std::alloc::Global;

/// The bytes of a token, as far as they lie within the text.
fn text_at(bytes: &[u8], token: Token) -> &[u8]
    ensures { result.now ≡ text_of bytes.now token }
{
    let rest = &bytes[token.from.min(bytes.len())..];
    &rest[..token.to.saturating_sub(token.from).min(rest.len())]
}

fn opens_group(shape: Shape) -> bool
    ensures { result ≡ opens_group shape }
{
    match shape {
        Shape::OpenParen | Shape::OpenBrace => true,
        _ => false,
    }
}

/// Whether the first of these tokens opens a group.
fn is_group(alloc: Global, bytes: &[u8], tokens: &[Token]) -> Result<bool, OutOfMemory>
    ensures { IfOk result (λ group. group ≡ is_group (texts_of bytes.now tokens.now)) }
{
    match tokens {
        [token, ..] => {
            let shape = shape_of(alloc, token.kind, text_at(bytes, *token))?;
            Ok(opens_group(shape))
        }
        [] => Ok(false),
    }
}

/// What a token counts for, where a group comes behind it or not.
fn told(shape: Shape, group: bool) -> Shape
    ensures { result ≡ told shape group }
{
    match shape {
        Shape::Record => { if group { Shape::Record } else { Shape::Hash } }
        _ => shape,
    }
}

/// The shape of a token with these behind it: a debug record is told by a group.
fn shape_before(
    alloc: Global,
    bytes: &[u8],
    kind: Kind,
    text: &[u8],
    behind: &[Token],
) -> Result<Shape, OutOfMemory>
    ensures { IfOk result (λ shape. shape ≡ shape_before (kind, text.now) (texts_of bytes.now behind.now)) }
{
    let shape = shape_of(alloc, kind, text)?;
    match shape {
        Shape::Record => {
            let group = is_group(alloc, bytes, behind)?;
            Ok(told(Shape::Record, group))
        }
        _ => Ok(shape),
    }
}

/// A scalar as what a call returns.
fn returned(shape: Shape) -> Shape
    ensures { result ≡ returned shape }
{
    match shape {
        Shape::Scalar(ty) => Shape::Returned(ty),
        _ => shape,
    }
}

/// Adds a token to those that are kept, if it is kept.
fn add<'a>(
    kept: &mut Vec<Lexeme<'a>>,
    keep: Keep,
    shape: Shape,
    text: &'a [u8],
) -> Result<(), OutOfMemory>
    ensures { OnOk result (seen kept.new.items ≡ seen kept.old.items ++ keeping keep shape text.now []) }
{
    let shape = match keep {
        Keep::Drops => return Ok(()),
        Keep::Keeps => shape,
        Keep::AsResult => Shape::Result,
        Keep::AsAddress => Shape::Address,
        Keep::AsReturned => returned(shape),
    };
    kept.push(Lexeme { shape, text })?;
    Ok(())
}

/// The tokens from a place on.
fn tokens_from(tokens: &[Token], from: usize) -> &[Token]
    ensures { result.now ≡ drop from tokens.now }
{
    &tokens[from.min(tokens.len())..]
}

/// What is kept of the tokens that the nonterminal takes, and how many they are.
fn taken<'a>(
    alloc: Global,
    bytes: &'a [u8],
    tokens: &[Token],
    start: Name,
) -> Result<Option<(Vec<Lexeme<'a>>, usize)>, OutOfMemory>
    ensures spelled { IfOk result (λ found. walk (item.One start ∷ []) (texts_of bytes.now tokens.now) ≡ option_map (λ f. (seen f.0.items, f.1)) found) }
    ensures within { IfOk result (λ found. IfSome found (λ f. f.1 ≤ length tokens.now)) }
{
    let mut kept = Vec::new(alloc);
    let mut stack = List::new(alloc);
    stack.push(Item::One(start))?;
    for (at, token) in tokens.iter().enumerate() {
        let text = text_at(bytes, *token);
        let shape = shape_before(alloc, bytes, token.kind, text, &tokens[at + 1..])?;
        match settle(&mut stack, shape)? {
            Settled::Taken(keep) => add(&mut kept, keep, shape, text)?,
            Settled::AllLeft => return Ok(Some((kept, at))),
            Settled::Refused => return Ok(None),
        }
    }
    if may_end(stack.as_slice()) {
        Ok(Some((kept, tokens.len())))
    } else {
        Ok(None)
    }
}

/// Reads what a nonterminal of the grammar derives at a place among tokens, counted in tokens; behind
/// their end nothing is left to read. The grammar is that of the subset, in the terms of the LLVM
/// Language Reference Manual.
///
/// It gives the tokens that are kept, each with what counts of it, and the place of the first token
/// behind them. `None` comes where the nonterminal derives none of the first tokens: one can't stand where
/// it does, or the tokens end too soon. `OutOfMemory` comes where the allocator refuses memory.
pub fn read_nonterminal<'a>(
    alloc: Global,
    bytes: &'a [u8],
    tokens: &[Token],
    from: usize,
    start: Name,
) -> Result<Option<(Vec<Lexeme<'a>>, usize)>, OutOfMemory>
    ensures derived { IfOk result (λ found. IfSome found (λ f. IsDerived start (texts_of bytes.now (drop from tokens.now)) (seen f.0.items) (f.1 - from))) }
    ensures refused { IfOk result (λ found. IfNone found (IsNotDerived start (texts_of bytes.now (drop from tokens.now)))) }
    ensures after { IfOk result (λ found. IfSome found (λ f. from ≤ f.1)) }
    ensures within { IfOk result (λ found. IfSome found (λ f. from ≤ length tokens.now → f.1 ≤ length tokens.now)) }
{
    match taken(alloc, bytes, tokens_from(tokens, from), start)? {
        Some((kept, count)) => Ok(Some((kept, from + count))),
        None => Ok(None),
    }
}

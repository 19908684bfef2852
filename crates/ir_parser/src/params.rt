//! Parameters of functions.
ghost use Rattle.std.specs.Prelude.{◌≡◌, ◌≤◌, length, map, true, false, IfOk, IfSome};
ghost use Rattle.std.specs.List.{list_all};
ghost use Rattle.name_table.specs.Places.{are_distinct};
ghost use Rattle.ir_grammar.specs.Tokens.{seen};
ghost use Rattle.ir_scope.specs.Runs.{runs};
ghost use Rattle.ir_types.specs.Names.{is_name};
ghost use Rattle.ir_operands.specs.Marks.{is_scalar};
ghost use Rattle.ir_parser.specs.Items.{named_at, param_at, params_at, names_from, are_params};
ghost use Rattle.ir_parser.specs.Mirrors.Steps.{name_or, counts};

use crate::spelling::name;
use ir_grammar::{Lexeme, Shape};
use ir_locals::{decimal_name, is_decimal};
use ir_operands::{after, begins_scalar, closes_paren, dots, ext};
use ir_syntax::Param;
use ir_types::{Bytes, OutOfMemory, is_name};
use name_table::Names;
use sqlite_items::Items as List;
use std::alloc::Global;

/// The most parameters of a function.
const MOST_PARAMS: usize = 32;

/// A name or none, and how many lexemes that is.
fn named(alloc: Global, kept: &[Lexeme]) -> Result<(Option<Bytes>, usize), OutOfMemory>
    ensures exact { IfOk result (λ found. found ≡ named_at (seen kept.now)) }
    ensures within { IfOk result (λ found. found.1 ≤ length kept.now) }
{
    match kept {
        [first, ..] => match first.shape {
            Shape::Local => Ok((Some(name(alloc, first.text)?), 1)),
            _ => Ok((None, 0)),
        },
        [] => Ok((None, 0)),
    }
}

/// The parameter in front, with its name or none, and how many lexemes it has.
fn param(
    alloc: Global,
    kept: &[Lexeme],
) -> Result<Option<((Param, Option<Bytes>), usize)>, OutOfMemory>
    ensures exact { IfOk result (λ found. found ≡ param_at (seen kept.now)) }
    ensures taken { IfOk result (λ found. IfSome found (λ f. (1 ≤ f.1) × (f.1 ≤ length kept.now))) }
{
    match kept {
        [first, rest @ ..] => match first.shape {
            Shape::Scalar(ty) => {
                let (ext, marked) = ext(rest);
                let (name, named) = named(alloc, after(rest, marked))?;
                Ok(Some(((Param { ty, ext }, name), 1 + marked + named)))
            }
            _ => Ok(None),
        },
        [] => Ok(None),
    }
}

/// The parameters in front.
fn fixed_params(
    alloc: Global,
    kept: &[Lexeme],
) -> Result<Option<(List<(Param, Option<Bytes>)>, usize)>, OutOfMemory>
    ensures exact { IfOk result (λ found. found ≡ runs is_scalar param_at (seen kept.now)) }
    ensures within { IfOk result (λ found. IfSome found (λ f. f.1 ≤ length kept.now)) }
{
    let mut params = List::new(alloc);
    let mut at = 0;
    'reading: loop {
        let rest = after(kept, at);
        if !begins_scalar(rest) {
            return Ok(Some((params, at)));
        }
        match param(alloc, rest)? {
            Some((param, count)) => {
                params.push(param)?;
                at += count;
            }
            None => return Ok(None),
        }
    }
}

/// The parameters behind an opening parenthesis, whether there are more than are written, and how many lexemes that is
/// with the closing one.
pub(crate) fn params(
    alloc: Global,
    kept: &[Lexeme],
) -> Result<Option<((List<(Param, Option<Bytes>)>, bool), usize)>, OutOfMemory>
    ensures exact { IfOk result (λ found. found ≡ params_at (seen kept.now)) }
    ensures within { IfOk result (λ found. IfSome found (λ f. f.1 ≤ length kept.now)) }
{
    let (params, count) = match fixed_params(alloc, kept)? {
        Some(found) => found,
        None => return Ok(None),
    };
    let (variadic, more) = dots(after(kept, count));
    let end = count + more;
    if closes_paren(after(kept, end)) {
        Ok(Some(((params, variadic), end + 1)))
    } else {
        Ok(None)
    }
}

/// Whether a parameter with this name or none counts for the names of those behind it.
fn counts(name: &Option<Bytes>) -> bool
    ensures { result ≡ counts name.now }
{
    match name {
        Some(name) => is_decimal(name.as_slice()),
        None => true,
    }
}

/// The name, or the number where there is none.
fn name_or(alloc: Global, name: &Option<Bytes>, number: usize) -> Result<Bytes, OutOfMemory>
    ensures { IfOk result (λ found. found ≡ name_or name.now number) }
{
    match name {
        Some(name) => name.copy(alloc),
        None => decimal_name(alloc, number),
    }
}

/// The names of parameters: one without a name has the count of those before it that have none or a decimal one.
pub(crate) fn names(
    alloc: Global,
    params: &[(Param, Option<Bytes>)],
) -> Result<List<Bytes>, OutOfMemory>
    ensures { IfOk result (λ names. names ≡ names_from 0 (map (λ p. p.1) params.now)) }
{
    let mut names = List::new(alloc);
    let mut number = 0;
    for param in params {
        names.push(name_or(alloc, &param.1, number)?)?;
        if counts(&param.1) {
            number += 1;
        }
    }
    Ok(names)
}

/// The parameters without their names.
pub(crate) fn types(
    alloc: Global,
    params: &[(Param, Option<Bytes>)],
) -> Result<List<Param>, OutOfMemory>
    ensures { IfOk result (λ types. types ≡ map (λ p. p.0) params.now) }
{
    let mut types = List::new(alloc);
    for param in params {
        types.push(param.0)?;
    }
    Ok(types)
}

/// Whether no name stands twice.
fn are_distinct(alloc: Global, names: &[Bytes]) -> Result<bool, OutOfMemory>
    ensures { IfOk result (λ distinct. distinct ≡ are_distinct names.now) }
{
    let mut seen = Names::new(alloc);
    for name in names {
        if !seen.add(alloc, name.as_slice())? {
            return Ok(false);
        }
    }
    Ok(true)
}

/// Whether each of these is a name.
fn are_names(names: &[Bytes]) -> bool
    ensures { result ≡ list_all is_name names.now }
{
    for name in names {
        if !is_name(name.as_slice()) {
            return false;
        }
    }
    true
}

/// Whether these are names of parameters: at most 32, and distinct.
pub(crate) fn are_params(alloc: Global, names: &[Bytes]) -> Result<bool, OutOfMemory>
    ensures { IfOk result (λ suit. suit ≡ are_params names.now) }
{
    if names.len() > MOST_PARAMS || !are_names(names) {
        return Ok(false);
    }
    are_distinct(alloc, names)
}

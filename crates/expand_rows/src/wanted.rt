//! The expansion of what the name of a row asks for.
ghost use Rattle.std.specs.Prelude.{IfOk, IfSome};
ghost use Rattle.demands.specs.Order.{symbol_of as symbol_in};
ghost use Rattle.demands.specs.Rows.{IsShortSymbol};

use crate::bodies::body_text;
use crate::found::symbol_of;
use crate::shown::rows_text;
use demand_core::Expand;
use demands::{Demand, Pattern, row_of};
use interface::item_of;
use ir_syntax::{Item, Program, Sym};
use ir_types::{Known, OutOfMemory};
use specialise::{Expander, Piece};
use std::alloc::Global;

fn known_by(word: &str) -> Known {
    if word == "null" {
        return Known::Null;
    }
    match word.parse::<u64>() {
        Ok(number) => Known::Num(number),
        Err(_) => Known::Unknown,
    }
}

/// The words behind a word of the name.
fn words_behind<'a>(name: &'a str, before: &str) -> &'a str {
    match name.split_once(before) {
        Some((_, words)) => words,
        None => "",
    }
}

/// What the words behind `with` say of parameters, of which there are at most 32.
pub(crate) fn pattern_by(alloc: Global, name: &str) -> Result<Pattern, OutOfMemory> {
    let mut items = [Known::Unknown; 32];
    let mut count = 0;
    for word in words_behind(name, " with ").split(' ') {
        if count < 32 && !word.is_empty() {
            items[count] = known_by(word);
            count += 1;
        }
    }
    Pattern::new(alloc, &items[..count])
}

/// The demand of the item that a symbol names.
fn demand_by(
    alloc: Global,
    program: &Program,
    symbol: Sym,
    name: &str,
) -> Result<Demand, OutOfMemory>
    requires { IsShortSymbol symbol }
    ensures { IfOk result (λ d. IsShortSymbol (symbol_in d)) }
{
    match item_of(program, symbol) {
        Some(Item::Var(_)) => Ok(Demand::Var { var: symbol }),
        _ => {
            let pattern = pattern_by(alloc, name)?;
            Ok(Demand::Func {
                func: symbol,
                pattern,
            })
        }
    }
}

/// The size and the needs of a piece, and the lines of its body.
pub(crate) fn piece_text(
    alloc: Global,
    program: &Program,
    symbol: Sym,
    piece: &Piece,
) -> anyhow::Result<String> {
    let size = piece.size;
    let needs = rows_text(alloc, program, piece.calls.as_slice())?;
    let body = match (&piece.body, program.modules().get(symbol.module)) {
        (Some(body), Some(home)) => body_text(alloc, home.items.as_slice(), body)?,
        _ => String::from_str(alloc, ", no body")?,
    };
    Ok(format!(in alloc; "size {size}, needs{needs}{body}")?)
}

/// The symbol of the item whose name stands behind `of`.
pub(crate) fn asked_of(program: &Program, name: &str) -> Option<Sym>
    ensures { IfSome result IsShortSymbol }
{
    let words = words_behind(name, " of ");
    let item = words.split(' ').next().unwrap_or("");
    symbol_of(program, item.as_bytes())
}

/// The piece of the item whose name stands behind `of`, where what is known of its parameters stands behind `with`.
pub(crate) fn expanded_text(
    alloc: Global,
    program: &Program,
    name: &str,
) -> anyhow::Result<String> {
    let symbol = match asked_of(program, name) {
        Some(symbol) => symbol,
        None => return Ok(String::from_str(alloc, "no item")?),
    };
    let demand = demand_by(alloc, program, symbol, name)?;
    let expander = Expander::new(alloc, program)?;
    let piece = expander.expand(alloc, &row_of(&demand))?;
    piece_text(alloc, program, symbol, &piece)
}

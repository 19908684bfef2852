//! What is left of a function by the assignment that is given no edge and no fact, in which each result varies.
ghost use Rattle.std.specs.Prelude.{◌≡◌, Some, IsSome};
ghost use Rattle.ir_syntax.specs.Symbols.{item_at};
ghost use Rattle.ir_syntax.specs.declared.item.Item.TheVariants as item;

use crate::wanted::{asked_of, pattern_by, piece_text};
use call_cycles::on_cycles;
use demands::{Demand, Pattern};
use fold_facts::Assignment;
use interface::item_of;
use ir_syntax::{Func, Item, Program, Sym};
use ir_types::OutOfMemory;
use specialise::{Piece, residual};
use std::alloc::Global;

fn given_piece(
    alloc: Global,
    program: &Program,
    symbol: Sym,
    func: &Func,
    pattern: Pattern,
) -> Result<Piece, OutOfMemory>
    requires func { item_at program.now.modules symbol ≡ Some (item.Func func.now) }
    requires body { IsSome func.now.body }
{
    let cycles = on_cycles(alloc, program)?;
    let a = Assignment::of(alloc, func, &[], &[])?;
    let demand = Demand::Func {
        func: symbol,
        pattern,
    };
    residual(alloc, program, &cycles, &demand, &a)
}

/// The piece by that assignment of the function whose name stands behind `of`, where what is known of its parameters stands
/// behind `with`.
pub(crate) fn given_text(alloc: Global, program: &Program, name: &str) -> anyhow::Result<String> {
    let symbol = match asked_of(program, name) {
        Some(symbol) => symbol,
        None => return Ok(String::from_str(alloc, "no item")?),
    };
    match item_of(program, symbol) {
        Some(Item::Func(func)) => {
            if func.body.is_none() {
                return Ok(String::from_str(alloc, "no body")?);
            }
            let pattern = pattern_by(alloc, name)?;
            let piece = given_piece(alloc, program, symbol, func, pattern)?;
            piece_text(alloc, program, symbol, &piece)
        }
        Some(Item::Var(_)) => Ok(String::from_str(alloc, "no function")?),
        None => Ok(String::from_str(alloc, "no item")?),
    }
}

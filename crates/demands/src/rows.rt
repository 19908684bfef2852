//! Rows of demands.
ghost use Rattle.std.specs.Prelude.{◌≡◌, ◌≤◌, [], ◌∷◌, map, length};
ghost use Rattle.demands.specs.Order.{number_of, symbol_of};
ghost use Rattle.demands.specs.Rows.{IsShortSymbol, pattern_bits, place_word, words_of};

use crate::Demand;
use demand_core::Row;
use ir_syntax::Sym;
use ir_types::Known;

fn place_of(symbol: Sym, kind: u64) -> u64
    requires short { IsShortSymbol symbol }
    requires bit { kind ≤ 1 }
    ensures { result ≡ place_word symbol kind }
{
    symbol.module as u64 * (1 << 33) + symbol.item as u64 * 2 + kind
}

/// Bit k is set where item k is a number, and bit 32 + k where it is null.
fn bits_of(items: &[Known]) -> u64
    requires few { length items.now ≤ 32 }
    ensures { result ≡ pattern_bits items.now }
{
    let mut bits = 0;
    for k in (0..items.len()).rev() {
        let bit = match items[k] {
            Known::Unknown => 0,
            Known::Num(_) => 1,
            Known::Null => 1 << 32,
        };
        bits = 2 * bits + bit;
    }
    bits
}

fn number_in(item: &Known) -> u64
    ensures { result ≡ number_of item.now }
{
    match item {
        Known::Num(number) => *number,
        Known::Unknown => 0,
        Known::Null => 0,
    }
}

fn function_row(place: u64, bits: u64, items: &[Known]) -> Row
    requires few { length items.now ≤ 32 }
    ensures { result ≡ place ∷ bits ∷ map number_of items.now }
{
    let mut words = [0; 34];
    words[0] = place;
    words[1] = bits;
    for (k, item) in items.iter().enumerate() {
        words[k + 2] = number_in(item);
    }
    match Row::of(&words[..items.len() + 2]) {
        Some(row) => row,
        None => unreachable!(),
    }
}

fn variable_row(place: u64) -> Row
    ensures { result ≡ place ∷ 0 ∷ [] }
{
    match Row::of(&[place, 0]) {
        Some(row) => row,
        None => unreachable!(),
    }
}

/// The row of a demand. Takes no memory.
///
/// Word 0 is the symbol and its kind: the module times 2^33, the item times 2, and 1 for a variable. Of a function bit k
/// of word 1 is set where item k of the pattern is a number, and bit 32 + k where it is null, and then comes each item's
/// number, or 0. A variable has word 0 and a 0. The module is below 2^31 and the item below 2^32.
pub fn row_of(d: &Demand) -> Row
    requires short { IsShortSymbol (symbol_of d.now) }
    ensures { result ≡ words_of d.now }
{
    match d {
        Demand::Func { func, pattern } => {
            let items = pattern.items();
            function_row(place_of(*func, 0), bits_of(items), items)
        }
        Demand::Var { var } => variable_row(place_of(*var, 1)),
    }
}

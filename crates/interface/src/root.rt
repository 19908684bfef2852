//! What a deployment asks for at first.
ghost use Rattle.std.specs.Prelude.{◌≡◌, ◌≤◌, [], ◌∷◌, ◌++◌, ◌||◌, IfOk, OnOk, Some, length, map, option_to_list, if◌then◌else◌};
ghost use Rattle.std.specs.List.{list_any};
ghost use Rattle.ir_syntax.specs.declared.symbol.Sym as symbols_of;
ghost use Rattle.demands.specs.Rows.{words_of};
ghost use Rattle.interface.specs.Asked.{AreCycles, asked_by};
ghost use Rattle.interface.specs.Roots.{is_symbol as same_symbol, is_export as exported, is_definition as defines, names_symbol as names_it, is_named as is_named_in, is_only_entered as only_entered, root_pattern as pattern_of_root, by_root, once as each_once, roots as roots_of};
ghost use Rattle.interface.specs.Mirrors.Seen.{has};

use crate::asked::{all_unknown, definition_of, item_of, pattern_for};
use crate::seen::Seen;
use demand_core::Row;
use demands::{Demand, Pattern, row_of};
use ir_syntax::{Func, Item, Program, Sym};
use ir_types::{List, OutOfMemory};
use std::alloc::Global;

fn is_symbol(a: Sym, b: Sym) -> bool
    ensures { result ≡ same_symbol a b }
{
    a.module == b.module && a.item == b.item
}

fn is_export(p: &Program, symbol: Sym) -> bool
    ensures { result ≡ exported p.now symbol }
{
    for export in p.exports() {
        if is_symbol(symbol, *export) {
            return true;
        }
    }
    false
}

fn is_definition(symbol: Sym, found: Option<Sym>) -> bool
    ensures { result ≡ defines symbol found }
{
    match found {
        Some(other) => is_symbol(symbol, other),
        None => false,
    }
}

/// Whether an item's body or initialiser names the symbol.
fn names_symbol(
    alloc: Global,
    p: &Program,
    symbol: Sym,
    home: usize,
    item: &Item,
) -> Result<bool, OutOfMemory>
    ensures { IfOk result (λ found. found ≡ names_it p.now symbol home item.now) }
{
    let names = item.add_names(List::new(alloc))?;
    for place in names.as_slice() {
        if is_definition(symbol, definition_of(p, home, *place)) {
            return Ok(true);
        }
    }
    Ok(false)
}

fn any_names(
    alloc: Global,
    p: &Program,
    symbol: Sym,
    home: usize,
    items: &[Item],
) -> Result<bool, OutOfMemory>
    ensures { IfOk result (λ found. found ≡ list_any (names_it p.now symbol home) items.now) }
{
    for item in items {
        if names_symbol(alloc, p, symbol, home, item)? {
            return Ok(true);
        }
    }
    Ok(false)
}

/// Whether a body or an initialiser of the program names the symbol.
fn is_named(alloc: Global, p: &Program, symbol: Sym) -> Result<bool, OutOfMemory>
    ensures { IfOk result (λ found. found ≡ is_named_in p.now symbol) }
{
    for (home, module) in p.modules().iter().enumerate() {
        if any_names(alloc, p, symbol, home, module.items.as_slice())? {
            return Ok(true);
        }
    }
    Ok(false)
}

fn is_only_entered(alloc: Global, p: &Program, symbol: Sym) -> Result<bool, OutOfMemory>
    ensures { IfOk result (λ only. only ≡ only_entered p.now symbol) }
{
    if !is_symbol(p.entry(), symbol) || is_export(p, symbol) {
        return Ok(false);
    }
    Ok(!is_named(alloc, p, symbol)?)
}

fn root_pattern(
    alloc: Global,
    p: &Program,
    cycles: &List<List<bool>>,
    symbol: Sym,
    func: &Func,
) -> Result<Pattern, OutOfMemory>
    requires few { length func.now.params ≤ 32 }
    requires few_args { length p.now.entry_args ≤ 32 }
    ensures { IfOk result (λ pattern. pattern ≡ pattern_of_root p.now cycles.now symbol func.now) }
{
    if is_only_entered(alloc, p, symbol)? {
        pattern_for(alloc, cycles, symbol, func, p.entry_args())
    } else {
        all_unknown(alloc, func)
    }
}

/// Adds the row of a root.
fn add_root(
    alloc: Global,
    rows: &mut List<Row>,
    p: &Program,
    cycles: &List<List<bool>>,
    symbol: Sym,
) -> Result<(), OutOfMemory>
    ensures { OnOk result (rows.new ≡ rows.old ++ map words_of (option_to_list (asked_by (by_root p.now cycles.now) p.now (Some symbol)))) }
{
    match item_of(p, symbol) {
        Some(Item::Func(func)) => {
            let pattern = root_pattern(alloc, p, cycles, symbol, func)?;
            rows.push(row_of(&Demand::Func {
                func: symbol,
                pattern,
            }))?;
        }
        Some(Item::Var(_)) => rows.push(row_of(&Demand::Var { var: symbol }))?,
        None => {}
    }
    Ok(())
}

/// Adds a symbol that wasn't seen before.
fn add_once(seen: &mut Seen, symbols: &mut List<Sym>, symbol: Sym) -> Result<(), OutOfMemory>
    ensures symbols { OnOk result (symbols.new ≡ symbols.old ++ (if has seen.old symbol then [] else symbol ∷ [])) }
    ensures seen { OnOk result ((other : symbols_of.Sym) → has seen.new other ≡ (same_symbol symbol other || has seen.old other)) }
{
    if !seen.add(symbol)? {
        return Ok(());
    }
    symbols.push(symbol)?;
    Ok(())
}

/// The symbols, each where it stands first.
fn once(alloc: Global, first: Sym, more: &[Sym]) -> Result<List<Sym>, OutOfMemory>
    ensures { IfOk result (λ symbols. symbols ≡ each_once (first ∷ more.now)) }
{
    let mut seen = Seen::new(alloc);
    let mut symbols = List::new(alloc);
    add_once(&mut seen, &mut symbols, first)?;
    for symbol in more {
        add_once(&mut seen, &mut symbols, *symbol)?;
    }
    Ok(symbols)
}

/// The rows of the demands that a deployment asks for at first, each once: the entry's, and then those of the exports, in the
/// order of the manifest. An export is asked for with nothing known. The entry is asked for with what is known of its
/// arguments, or with nothing known where it is an export, is on a call cycle, has a name of more than 3,072 bytes, or is
/// named by any body or initialiser of the program.
///
/// `cycles` says of each item whether it is on a call cycle, as `on_cycles` gives it. `OutOfMemory` says that the allocator
/// refused memory.
pub fn roots(
    alloc: Global,
    p: &Program,
    cycles: &List<List<bool>>,
) -> Result<List<Row>, OutOfMemory>
    requires cycles { AreCycles p.now cycles.now }
    ensures { IfOk result (λ rows. rows ≡ map words_of (roots_of p.now cycles.now)) }
{
    let symbols = once(alloc, p.entry(), p.exports())?;
    let mut rows = List::new(alloc);
    for symbol in symbols.as_slice() {
        add_root(alloc, &mut rows, p, cycles, *symbol)?;
    }
    Ok(rows)
}

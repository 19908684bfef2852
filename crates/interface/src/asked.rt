//! Which demands calls and names ask for.
ghost use Rattle.std.specs.Prelude.{◌≡◌, ◌≤◌, None, Some, MatchOption, IfOk, IfSome, length};
ghost use Rattle.ir_syntax.specs.Symbols.{item_at};
ghost use Rattle.ir_syntax.specs.Targets.{entry_at};
ghost use Rattle.ir_syntax.specs.Programs.{IsProgram};
ghost use Rattle.demands.specs.Order.{symbol_of};
ghost use Rattle.demands.specs.Rows.{IsShortSymbol};
ghost use Rattle.interface.specs.Masks.{flag_at};
ghost use Rattle.interface.specs.Asked.{is_specialised as specialised, all_unknown as unknown_of, pattern_for as for_pattern, definition_of as defined_as, called as by_call, named as by_name};

use demands::{Demand, Pattern};
use ir_syntax::{Func, Item, Program, Sym, Target};
use ir_types::{Known, List, OutOfMemory};
use std::alloc::Global;

// A function with a longer name isn't specialised.
const LONGEST_NAME: usize = 3_072;

/// The item that a symbol names. `None` comes where there is no such module, or no such item in it.
pub fn item_of(p: &Program, symbol: Sym) -> Option<&Item>
    ensures item { MatchOption result (item_at p.now.modules symbol ≡ None) (λ found. item_at p.now.modules symbol ≡ Some found.now) }
    ensures program { IsProgram p.now }
{
    match p.modules().get(symbol.module) {
        Some(module) => module.items.get(symbol.item),
        None => None,
    }
}

/// The definition for which the item at a place of a module stands, if it stands for one.
pub(crate) fn definition_of(p: &Program, home: usize, place: usize) -> Option<Sym>
    ensures { result ≡ defined_as p.now home place }
{
    let symbol = Sym {
        module: home,
        item: place,
    };
    match item_of(p, symbol) {
        Some(_) => match p.target(symbol) {
            Target::Def(definition) => Some(*definition),
            Target::Outside => None,
            Target::Builtin(_) => None,
            Target::Intrinsic(_) => None,
            Target::Nothing => None,
        },
        None => None,
    }
}

fn is_on_cycle(cycles: &List<List<bool>>, symbol: Sym) -> bool
    ensures { result ≡ flag_at (entry_at cycles.now symbol) }
{
    match cycles.get(symbol.module) {
        Some(row) => match row.get(symbol.item) {
            Some(flag) => *flag,
            None => false,
        },
        None => false,
    }
}

fn is_specialised(cycles: &List<List<bool>>, symbol: Sym, func: &Func) -> bool
    ensures { result ≡ specialised cycles.now symbol func.now }
{
    !is_on_cycle(cycles, symbol) && func.name.len() <= LONGEST_NAME
}

/// One unknown item for each parameter.
pub(crate) fn all_unknown(alloc: Global, func: &Func) -> Result<Pattern, OutOfMemory>
    requires few { length func.now.params ≤ 32 }
    ensures { IfOk result (λ pattern. pattern ≡ unknown_of func.now) }
{
    let unknown = [Known::Unknown; 32];
    Pattern::new(alloc, &unknown[..func.params.len()])
}

/// What is asked of a function where this is known of the arguments.
pub(crate) fn pattern_for(
    alloc: Global,
    cycles: &List<List<bool>>,
    symbol: Sym,
    func: &Func,
    known: &[Known],
) -> Result<Pattern, OutOfMemory>
    requires few { length known.now ≤ 32 }
    requires few_params { length func.now.params ≤ 32 }
    ensures { IfOk result (λ pattern. pattern ≡ for_pattern cycles.now symbol func.now known.now) }
{
    if is_specialised(cycles, symbol, func) {
        Pattern::new(alloc, known)
    } else {
        all_unknown(alloc, func)
    }
}

/// What a call asks for whose callee is written as the name of the item at `place` of the module `home`, where this is known
/// of the arguments, at most 32: a function with a body with what is known of them, or with nothing known where it is on a
/// call cycle or its name has more than 3,072 bytes. `None` comes where the item stands for no definition. `cycles` says of
/// each item whether it is on a call cycle, as `on_cycles` gives it. `OutOfMemory` says that the allocator refused memory.
pub fn called(
    alloc: Global,
    p: &Program,
    cycles: &List<List<bool>>,
    home: usize,
    place: usize,
    known: &[Known],
) -> Result<Option<Demand>, OutOfMemory>
    requires few { length known.now ≤ 32 }
    ensures demand { IfOk result (λ asked. asked ≡ by_call p.now cycles.now home (place, known.now)) }
    ensures short { IfOk result (λ asked. IfSome asked (λ d. IsShortSymbol (symbol_of d))) }
{
    let symbol = match definition_of(p, home, place) {
        Some(symbol) => symbol,
        None => return Ok(None),
    };
    match item_of(p, symbol) {
        Some(Item::Func(func)) => {
            let pattern = pattern_for(alloc, cycles, symbol, func, known)?;
            Ok(Some(Demand::Func {
                func: symbol,
                pattern,
            }))
        }
        Some(Item::Var(_)) => Ok(Some(Demand::Var { var: symbol })),
        None => Ok(None),
    }
}

/// What any other naming of the item at `place` of the module `home` asks for: a function with a body with nothing known, or
/// a variable with an initialiser. `None` comes where the item stands for no definition. `OutOfMemory` says that the allocator
/// refused memory.
pub fn named(
    alloc: Global,
    p: &Program,
    home: usize,
    place: usize,
) -> Result<Option<Demand>, OutOfMemory>
    ensures demand { IfOk result (λ asked. asked ≡ by_name p.now home place) }
    ensures short { IfOk result (λ asked. IfSome asked (λ d. IsShortSymbol (symbol_of d))) }
{
    let symbol = match definition_of(p, home, place) {
        Some(symbol) => symbol,
        None => return Ok(None),
    };
    match item_of(p, symbol) {
        Some(Item::Func(func)) => {
            let pattern = all_unknown(alloc, func)?;
            Ok(Some(Demand::Func {
                func: symbol,
                pattern,
            }))
        }
        Some(Item::Var(_)) => Ok(Some(Demand::Var { var: symbol })),
        None => Ok(None),
    }
}

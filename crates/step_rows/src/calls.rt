//! Calls of roots.
ghost use Rattle.std.specs.Prelude.{◌≡◌, IfOk, IfSome, OnOk, Some, None};
ghost use Rattle.ir_syntax.specs.Symbols.{item_at};
ghost use Rattle.ir_syntax.specs.declared.item.Item.TheVariants as item;
ghost use Rattle.ir_steps.specs.Reached.{IsRoot};
ghost use Rattle.ir_meaning.specs.Kept.{IsStateOf};

use crate::arguments::arguments_of;
use ir_meaning::State;
use ir_syntax::{Func, Item, Module, Program, Sym};
use std::alloc::Global;

fn is_called(item: &Item, name: &str) -> bool {
    match item {
        Item::Var(_) => false,
        Item::Func(func) => func.body.is_some() && func.name.as_slice() == name.as_bytes(),
    }
}

fn place_of(module: &Module, name: &str) -> Option<usize> {
    for (place, item) in module.items.as_slice().iter().enumerate() {
        if is_called(item, name) {
            return Some(place);
        }
    }
    None
}

// The first function of the name that has a body.
fn symbol_of(p: &Program, name: &str) -> Option<Sym> {
    for (place, module) in p.modules().iter().enumerate() {
        if let Some(item) = place_of(module, name) {
            return Some(Sym {
                module: place,
                item,
            });
        }
    }
    None
}

fn func_at(p: &Program, symbol: Sym) -> Option<&Func>
    ensures { IfSome result (λ func. item_at p.now.modules symbol ≡ Some (item.Func func.now)) }
{
    match p.modules().get(symbol.module)?.items.get(symbol.item)? {
        Item::Var(_) => None,
        Item::Func(func) => Some(func),
    }
}

// The arguments of a root, if it is one and they suit it.
fn root_arguments(
    alloc: Global,
    p: &Program,
    symbol: Sym,
    text: &str,
) -> anyhow::Result<Option<Vec<u64>>>
    ensures { IfOk result (λ some. IfSome some (λ args. IsRoot p.now symbol args.items)) }
{
    let Some(func) = func_at(p, symbol) else {
        return Ok(None);
    };
    match &func.body {
        Some(_) => arguments_of(alloc, text, func.params.as_slice()),
        None => Ok(None),
    }
}

/// The entry, or the function that a call names first.
fn called(p: &Program, name: &str) -> Option<Sym> {
    if name.is_empty() {
        return Some(p.entry());
    }
    symbol_of(p, name)
}

/// Calls a root: a name, or nothing for the entry, and numbers. Answers whether there is a root that they suit. The error is
/// want of memory.
pub(crate) fn enter(
    alloc: Global,
    p: &Program,
    state: &mut State,
    call: &str,
) -> anyhow::Result<bool>
    requires started { IsStateOf p.now state.old }
    requires idle { state.old.stack ≡ None }
    ensures still { OnOk result (IsStateOf p.now state.new) }
{
    let (name, text) = call.split_once(' ').unwrap_or((call, ""));
    let Some(symbol) = called(p, name) else {
        return Ok(false);
    };
    match root_arguments(alloc, p, symbol, text)? {
        Some(args) => {
            state.enter(alloc, p, symbol, args.as_slice())?;
            Ok(true)
        }
        None => Ok(false),
    }
}

//! What linking asks of items.
ghost use Rattle.std.specs.Prelude.{◌≡◌, IsSome, IsTrue, Some};
ghost use Rattle.std.specs.Option.{option_copied};
ghost use Rattle.ir_syntax.specs.declared.item.Item.TheVariants.{Func as OfFunction};
ghost use Rattle.ir_syntax.specs.FormedBody.{item_name};
ghost use Rattle.ir_syntax.specs.FunctionTypes.{function_type};
ghost use Rattle.ir_syntax.specs.Symbols.{item_at as item_of, linkage_of, is_external as is_external_linkage, is_defined as has_definition};
ghost use Rattle.linker.specs.Mirrors.Items.{defined_at, function_at, name_at as name_of_symbol};

use ir_syntax::{Func, Item, Linkage, Module, Sym};

/// The item that a symbol names: none, where there is no such module, or no such item in it.
pub(crate) fn item_at(modules: &[Module], symbol: Sym) -> Option<&Item>
    ensures { option_copied result ≡ item_of modules.now symbol }
{
    match modules.get(symbol.module) {
        Some(module) => module.items.get(symbol.item),
        None => None,
    }
}

/// The name of an item.
pub(crate) fn name_of(item: &Item) -> &[u8]
    ensures { result.now ≡ item_name item.now }
{
    match item {
        Item::Var(var) => var.name.as_slice(),
        Item::Func(func) => func.name.as_slice(),
    }
}

/// Whether every module sees the item's name.
pub(crate) fn is_external(item: &Item) -> bool
    ensures { result ≡ is_external_linkage (linkage_of item.now) }
{
    let linkage = match item {
        Item::Var(var) => var.linkage,
        Item::Func(func) => func.linkage,
    };
    match linkage {
        Linkage::External => true,
        Linkage::Internal => false,
        Linkage::Private => false,
    }
}

/// Whether the item has an initialiser or a body.
fn is_defined(item: &Item) -> bool
    ensures { result ≡ has_definition item.now }
{
    match item {
        Item::Var(var) => var.init.is_some(),
        Item::Func(func) => func.body.is_some(),
    }
}

/// The name of the item that a symbol names. No bytes, where it names none.
pub(crate) fn name_at(modules: &[Module], symbol: Sym) -> &[u8]
    ensures { result.now ≡ name_of_symbol modules.now symbol }
{
    match item_at(modules, symbol) {
        Some(item) => name_of(item),
        None => &[],
    }
}

/// Whether the symbol names a definition.
pub(crate) fn is_defined_at(modules: &[Module], symbol: Sym) -> bool
    ensures { result ≡ defined_at modules.now symbol }
{
    match item_at(modules, symbol) {
        Some(item) => is_defined(item),
        None => false,
    }
}

/// Whether the symbol names a function.
pub(crate) fn is_function_at(modules: &[Module], symbol: Sym) -> bool
    ensures { result ≡ function_at modules.now symbol }
{
    match item_at(modules, symbol) {
        Some(Item::Func(_)) => true,
        Some(Item::Var(_)) => false,
        None => false,
    }
}

/// The function that a symbol names.
pub(crate) fn function_at(modules: &[Module], symbol: Sym) -> &Func
    requires { IsTrue (function_at modules.now symbol) }
    ensures { item_of modules.now symbol ≡ Some (OfFunction result.now) }
{
    match item_at(modules, symbol) {
        Some(Item::Func(func)) => func,
        Some(Item::Var(_)) => unreachable!(),
        None => unreachable!(),
    }
}

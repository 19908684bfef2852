//! The symbols of an external name.
ghost use Rattle.std.specs.Prelude.{◌≡◌, ◌↔◌, IsTrue, IfOk, MatchBool, find};
ghost use Rattle.std.specs.List.{All, list_any};
ghost use Rattle.ir_syntax.specs.FunctionTypes.{function_type};
ghost use Rattle.ir_syntax.specs.Symbols.{item_at as item_of};
ghost use Rattle.linker.specs.Mirrors.Items.{defined_at, function_at, other_definition};
ghost use Rattle.linker.specs.Mirrors.Marks.{mark_at as mark_of_symbol};
ghost use Rattle.linker.specs.Mirrors.Groups.{symbols_in, HasOtherType};

use crate::items::{is_defined_at, is_function_at, item_at};
use crate::marks::mark_at;
use ir_syntax::{Item, Module, Sym};
use ir_types::{FnType, List, OutOfMemory};
use std::alloc::Global;

/// The symbols of the items of one external name, by module and then by item.
#[derive(Drop)]
pub(crate) struct Group {
    pub first: Sym,
    pub others: List<Sym>,
}

/// Whether the symbol names a definition that isn't this one.
fn is_other_definition(modules: &[Module], definition: Sym, symbol: Sym) -> bool
    ensures { result ≡ other_definition modules.now definition symbol }
{
    is_defined_at(modules, symbol) && symbol != definition
}

/// The type of the function that a symbol names. Of a variable it is none.
pub(crate) fn type_at(
    alloc: Global,
    modules: &[Module],
    symbol: Sym,
) -> Result<Option<FnType>, OutOfMemory>
    ensures { IfOk result (λ ty. ty ≡ function_type (item_of modules.now symbol)) }
{
    match item_at(modules, symbol) {
        Some(Item::Func(func)) => Ok(Some(func.fn_type(alloc)?)),
        Some(Item::Var(_)) => Ok(None),
        None => Ok(None),
    }
}

/// Whether the symbol names a function of this type, or no function where there is no type.
fn has_type_at(modules: &[Module], symbol: Sym, ty: &Option<FnType>) -> bool
    ensures { IsTrue result ↔ (function_type (item_of modules.now symbol) ≡ ty.now) }
{
    match item_at(modules, symbol) {
        Some(Item::Func(func)) => match ty {
            Some(ty) => func.has_type(ty),
            None => false,
        },
        Some(Item::Var(_)) => ty.is_none(),
        None => ty.is_none(),
    }
}

/// Whether each of the symbols names an item of this type.
fn have_type(modules: &[Module], symbols: &[Sym], ty: &Option<FnType>) -> bool
    ensures { MatchBool result (All (λ symbol. function_type (item_of modules.now symbol) ≡ ty.now) symbols.now) (HasOtherType modules.now ty.now symbols.now) }
{
    for symbol in symbols {
        if !has_type_at(modules, *symbol, ty) {
            return false;
        }
    }
    true
}

/// The first of the symbols that names a definition.
fn first_definition(modules: &[Module], symbols: &[Sym]) -> Option<Sym>
    ensures { result ≡ find (λ symbol. defined_at modules.now symbol) symbols.now }
{
    for symbol in symbols {
        if is_defined_at(modules, *symbol) {
            return Some(*symbol);
        }
    }
    None
}

/// Whether one of the symbols names a definition that isn't this one.
fn any_other_definition(modules: &[Module], definition: Sym, symbols: &[Sym]) -> bool
    ensures { result ≡ list_any (λ symbol. other_definition modules.now definition symbol) symbols.now }
{
    for symbol in symbols {
        if is_other_definition(modules, definition, *symbol) {
            return true;
        }
    }
    false
}

/// Whether one of the symbols names a function.
fn any_function(modules: &[Module], symbols: &[Sym]) -> bool
    ensures { result ≡ list_any (λ symbol. function_at modules.now symbol) symbols.now }
{
    for symbol in symbols {
        if is_function_at(modules, *symbol) {
            return true;
        }
    }
    false
}

/// Whether one of the symbols has a mark.
fn any_mark(marks: &[List<bool>], symbols: &[Sym]) -> bool
    ensures { result ≡ list_any (λ symbol. mark_of_symbol marks.now symbol) symbols.now }
{
    for symbol in symbols {
        if mark_at(marks, *symbol) {
            return true;
        }
    }
    false
}

impl Group {
    /// The first definition.
    pub(crate) fn definition(&self, modules: &[Module]) -> Option<Sym>
        ensures { result ≡ find (λ symbol. defined_at modules.now symbol) (symbols_in self.now) }
    {
        if is_defined_at(modules, self.first) {
            return Some(self.first);
        }
        first_definition(modules, self.others.as_slice())
    }

    /// Whether there is a definition beside this one.
    pub(crate) fn has_other_definition(&self, modules: &[Module], definition: Sym) -> bool
        ensures { result ≡ list_any (λ symbol. other_definition modules.now definition symbol) (symbols_in self.now) }
    {
        is_other_definition(modules, definition, self.first)
            || any_other_definition(modules, definition, self.others.as_slice())
    }

    /// Whether one of the items is a function.
    pub(crate) fn has_function(&self, modules: &[Module]) -> bool
        ensures { result ≡ list_any (λ symbol. function_at modules.now symbol) (symbols_in self.now) }
    {
        is_function_at(modules, self.first) || any_function(modules, self.others.as_slice())
    }

    /// Whether a body or an initialiser names one of the items.
    pub(crate) fn is_named(&self, marks: &[List<bool>]) -> bool
        ensures { result ≡ list_any (λ symbol. mark_of_symbol marks.now symbol) (symbols_in self.now) }
    {
        mark_at(marks, self.first) || any_mark(marks, self.others.as_slice())
    }

    /// Whether each of the items has this type.
    pub(crate) fn has_type(&self, modules: &[Module], ty: &Option<FnType>) -> bool
        ensures { MatchBool result (All (λ symbol. function_type (item_of modules.now symbol) ≡ ty.now) (symbols_in self.now)) (HasOtherType modules.now ty.now (symbols_in self.now)) }
    {
        has_type_at(modules, self.first, ty) && have_type(modules, self.others.as_slice(), ty)
    }
}

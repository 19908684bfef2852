//! Items of programs by their names.
ghost use Rattle.std.specs.Prelude.{IfSome};
ghost use Rattle.demands.specs.Rows.{IsShortSymbol};

use ir_syntax::{Item, Program, Sym};

/// The name of an item.
pub(crate) fn name_of(item: &Item) -> &[u8] {
    match item {
        Item::Var(var) => var.name.as_slice(),
        Item::Func(func) => func.name.as_slice(),
    }
}

fn is_definition_of(item: &Item, name: &[u8]) -> bool {
    let is_defined = match item {
        Item::Var(var) => var.init.is_some(),
        Item::Func(func) => func.body.is_some(),
    };
    is_defined && name_of(item) == name
}

fn place_in(items: &[Item], name: &[u8]) -> Option<usize> {
    for (place, item) in items.iter().enumerate() {
        if is_definition_of(item, name) {
            return Some(place);
        }
    }
    None
}

fn definition_of(program: &Program, name: &[u8]) -> Option<Sym> {
    for (module, home) in program.modules().iter().enumerate() {
        if let Some(item) = place_in(home.items.as_slice(), name) {
            return Some(Sym { module, item });
        }
    }
    None
}

/// The first definition of the name, if a row can hold its symbol.
pub(crate) fn symbol_of(program: &Program, name: &[u8]) -> Option<Sym>
    ensures { IfSome result IsShortSymbol }
{
    let symbol = definition_of(program, name)?;
    if symbol.module < 1 << 31 && symbol.item < 1 << 32 {
        Some(symbol)
    } else {
        None
    }
}

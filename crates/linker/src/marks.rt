//! Which items bodies and initialisers name.
ghost use Rattle.std.specs.Prelude.{◌≡◌, false, IfOk, length, replicate};
ghost use Rattle.linker.specs.Mirrors.Marks.{marked_all, marks_in as marks_of_items, marks_of as marks_of_modules, mark_at as mark_of_symbol};

use ir_syntax::{Item, Module, Sym};
use ir_types::{List, OutOfMemory};
use std::alloc::Global;

/// Marks places of a row.
fn mark_all(row: &mut List<bool>, places: &[usize])
    ensures { row.new ≡ marked_all row.old places.now }
{
    for place in places {
        if *place < row.len() {
            row.set(*place, true);
        }
    }
}

/// No marks, one for each item.
fn no_marks(alloc: Global, items: &[Item]) -> Result<List<bool>, OutOfMemory>
    ensures { IfOk result (λ row. row ≡ replicate (length items.now) false) }
{
    let mut row = List::new(alloc);
    for _item in items {
        row.push(false)?;
    }
    Ok(row)
}

/// For each item of a module, whether a body or an initialiser of the module names it.
fn marks_in(alloc: Global, items: &[Item]) -> Result<List<bool>, OutOfMemory>
    ensures { IfOk result (λ row. row ≡ marks_of_items items.now) }
{
    let mut row = no_marks(alloc, items)?;
    for item in items {
        let named = item.add_names(List::new(alloc))?;
        mark_all(&mut row, named.as_slice());
    }
    Ok(row)
}

/// The same of each module.
pub(crate) fn marks_of(alloc: Global, modules: &[Module]) -> Result<List<List<bool>>, OutOfMemory>
    ensures { IfOk result (λ marks. marks ≡ marks_of_modules modules.now) }
{
    let mut marks = List::new(alloc);
    for module in modules {
        marks.push(marks_in(alloc, module.items.as_slice())?)?;
    }
    Ok(marks)
}

/// The mark of the item that a symbol names.
pub(crate) fn mark_at(marks: &[List<bool>], symbol: Sym) -> bool
    ensures { result ≡ mark_of_symbol marks.now symbol }
{
    match marks.get(symbol.module) {
        Some(row) => match row.get(symbol.item) {
            Some(mark) => *mark,
            None => false,
        },
        None => false,
    }
}

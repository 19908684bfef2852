//! What each item stands for, and its canonical symbol.
ghost use Rattle.std.specs.Prelude.{◌≡◌, IfOk};
ghost use Rattle.linker.specs.Mirrors.Rows.{row_of, rows_from, target_in, canonical_in};

use crate::items::{is_external, name_of};
use crate::table::Table;
use ir_syntax::{Item, Module, Sym, Target};
use ir_types::{List, OutOfMemory};
use std::alloc::Global;

impl Table {
    /// What an item stands for.
    fn target_of(&self, item: &Item, symbol: Sym) -> Target
        ensures { result ≡ target_in self.now.names self.now.slots symbol item.now }
    {
        if !is_external(item) {
            return Target::Def(symbol);
        }
        match self.slot(name_of(item)) {
            Some(slot) => slot.target,
            None => Target::Nothing,
        }
    }

    /// The canonical symbol of an item.
    fn canonical_of(&self, item: &Item, symbol: Sym) -> Sym
        ensures { result ≡ canonical_in self.now.names self.now.slots symbol item.now }
    {
        if !is_external(item) {
            return symbol;
        }
        match self.slot(name_of(item)) {
            Some(slot) => slot.canonical,
            None => symbol,
        }
    }

    /// What the items of the module at a place stand for.
    fn target_row(
        &self,
        alloc: Global,
        place: usize,
        items: &[Item],
    ) -> Result<List<Target>, OutOfMemory>
        ensures { IfOk result (λ row. row ≡ row_of (target_in self.now.names self.now.slots) place 0 items.now) }
    {
        let mut row = List::new(alloc);
        for (item, found) in items.iter().enumerate() {
            row.push(self.target_of(
                found,
                Sym {
                    module: place,
                    item,
                },
            ))?;
        }
        Ok(row)
    }

    /// The canonical symbols of the items of the module at a place.
    fn canonical_row(
        &self,
        alloc: Global,
        place: usize,
        items: &[Item],
    ) -> Result<List<Sym>, OutOfMemory>
        ensures { IfOk result (λ row. row ≡ row_of (canonical_in self.now.names self.now.slots) place 0 items.now) }
    {
        let mut row = List::new(alloc);
        for (item, found) in items.iter().enumerate() {
            row.push(self.canonical_of(
                found,
                Sym {
                    module: place,
                    item,
                },
            ))?;
        }
        Ok(row)
    }

    /// What each item of each module stands for.
    pub(crate) fn targets(
        &self,
        alloc: Global,
        modules: &[Module],
    ) -> Result<List<List<Target>>, OutOfMemory>
        ensures { IfOk result (λ rows. rows ≡ rows_from (target_in self.now.names self.now.slots) 0 modules.now) }
    {
        let mut rows = List::new(alloc);
        for (place, module) in modules.iter().enumerate() {
            rows.push(self.target_row(alloc, place, module.items.as_slice())?)?;
        }
        Ok(rows)
    }

    /// The canonical symbol of each item of each module.
    pub(crate) fn canonical(
        &self,
        alloc: Global,
        modules: &[Module],
    ) -> Result<List<List<Sym>>, OutOfMemory>
        ensures { IfOk result (λ rows. rows ≡ rows_from (canonical_in self.now.names self.now.slots) 0 modules.now) }
    {
        let mut rows = List::new(alloc);
        for (place, module) in modules.iter().enumerate() {
            rows.push(self.canonical_row(alloc, place, module.items.as_slice())?)?;
        }
        Ok(rows)
    }
}

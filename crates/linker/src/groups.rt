//! The symbols of all external names.
ghost use Rattle.std.specs.Prelude.{◌≡◌, ◌++◌, ◌∷◌, [], ℕ, List as Listing, OnOk, IfOk, length};
ghost use Rattle.ir_syntax.specs.declared.symbol.Sym.{Sym as SymValue};
ghost use Rattle.linker.specs.Mirrors.Groups.{AreGroups, symbols_in_row, symbols_of, symbols_from, with_symbol, with_member};

use crate::group::Group;
use crate::items::{is_external, name_of};
use ir_syntax::{Item, Module, Sym};
use ir_types::{List, OutOfMemory};
use name_table::{Names, Placed};
use std::alloc::Global;

/// A group of symbols for each external name.
#[derive(Drop)]
pub(crate) struct Groups {
    pub names: Names,
    pub groups: Vec<Group>,
}

/// Adds a symbol to the group at a place.
fn add_to(groups: &mut Vec<Group>, place: usize, symbol: Sym) -> Result<(), OutOfMemory>
    ensures { OnOk result (groups.new.items ≡ with_member groups.old.items place symbol) }
{
    if place < groups.len() {
        groups[place].others.push(symbol)?;
    }
    Ok(())
}

impl Groups {
    /// No groups.
    fn new(alloc: Global) -> Groups
        ensures { AreGroups (λ name. []) result.names result.groups.items }
    {
        Groups {
            names: Names::new(alloc),
            groups: Vec::new(alloc),
        }
    }

    /// Adds a symbol behind those of its name.
    fn add(&mut self, alloc: Global, name: &[u8], symbol: Sym) -> Result<(), OutOfMemory>
        ensures { OnOk result ((symbols : Listing ℕ → Listing SymValue) → AreGroups symbols self.old.names self.old.groups.items
            → AreGroups (with_symbol symbols name.now symbol) self.new.names self.new.groups.items) }
    {
        match self.names.find_or_add(alloc, name)? {
            Placed::Found(place) => add_to(&mut self.groups, place, symbol),
            Placed::Added(_) => {
                let others = List::new(alloc);
                self.groups.push(Group {
                    first: symbol,
                    others,
                })?;
                Ok(())
            }
        }
    }

    /// Adds the symbol of an item by its module and place, if the item is external.
    fn add_item(
        &mut self,
        alloc: Global,
        place: usize,
        item: usize,
        found: &Item,
    ) -> Result<(), OutOfMemory>
        ensures { OnOk result ((symbols : Listing ℕ → Listing SymValue) → AreGroups symbols self.old.names self.old.groups.items
            → AreGroups (λ name. symbols name ++ symbols_in_row place item (found.now ∷ []) name) self.new.names self.new.groups.items) }
    {
        if !is_external(found) {
            return Ok(());
        }
        let symbol = Sym {
            module: place,
            item,
        };
        self.add(alloc, name_of(found), symbol)
    }

    /// Adds the symbols of the external items of the module at a place.
    fn add_items(&mut self, alloc: Global, place: usize, items: &[Item]) -> Result<(), OutOfMemory>
        ensures { OnOk result ((symbols : Listing ℕ → Listing SymValue) → AreGroups symbols self.old.names self.old.groups.items
            → AreGroups (λ name. symbols name ++ symbols_in_row place 0 items.now name) self.new.names self.new.groups.items) }
    {
        for (item, found) in items.iter().enumerate() {
            self.add_item(alloc, place, item, found)?;
        }
        Ok(())
    }

    /// The groups of the external names of these modules.
    pub(crate) fn of(alloc: Global, modules: &[Module]) -> Result<Groups, OutOfMemory>
        ensures { IfOk result (λ groups. AreGroups (λ name. symbols_of modules.now name) groups.names groups.groups.items) }
    {
        let mut groups = Groups::new(alloc);
        for (place, module) in modules.iter().enumerate() {
            groups.add_items(alloc, place, module.items.as_slice())?;
        }
        Ok(groups)
    }
}

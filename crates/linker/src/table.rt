//! What is found out of all external names.
ghost use Rattle.std.specs.Prelude.{◌≡◌, ◌↔◌, ◌++◌, ◌∷◌, [], ℕ, List as Listing, IsTrue, IfOk};
ghost use Rattle.linker.specs.declared.slot.Slot.{Slot as SlotValue};
ghost use Rattle.std.specs.List.{AllZip};
ghost use Rattle.std.specs.Option.{option_copied};
ghost use Rattle.ir_syntax.specs.Refusals.{Deployment};
ghost use Rattle.linker.specs.Mirrors.Marks.{marks_of as marks_of_modules};
ghost use Rattle.linker.specs.Mirrors.Slots.{AreSame, Says, IsTable, IsBelow, IsLeastSlot, IsLeastName, slot_of, rule_of};

use crate::group::Group;
use crate::groups::Groups;
use crate::items::name_at;
use crate::marks::marks_of;
use crate::slot::{NameRule, Slot};
use ir_syntax::{Module, Sym};
use ir_types::{Bytes, List, OutOfMemory};
use name_table::Names;
use std::alloc::Global;

/// A slot for each external name.
#[derive(Drop)]
pub(crate) struct Table {
    pub names: Names,
    pub slots: List<Slot>,
}

/// The names of a list, to be found by hash.
fn names_among(alloc: Global, listed: &[Bytes]) -> Result<Names, OutOfMemory>
    ensures { IfOk result (λ names. AreSame names listed.now) }
{
    let mut names = Names::new(alloc);
    for name in listed {
        names.add(alloc, name.as_slice())?;
    }
    Ok(names)
}

/// The slots of groups, in order. `marks` says which items are named, and `outside` which names are listed.
fn slots_of(
    alloc: Global,
    modules: &[Module],
    marks: &[List<bool>],
    outside: &Names,
    groups: &[Group],
) -> Result<List<Slot>, OutOfMemory>
    requires marks { marks.now ≡ marks_of_modules modules.now }
    ensures { IfOk result (λ slots. (listed : Listing (Listing ℕ)) → AreSame outside.now listed → AllZip (Says modules.now listed) groups.now slots) }
{
    let mut slots = List::new(alloc);
    for group in groups {
        slots.push(Slot::of(alloc, modules, marks, outside, group)?)?;
    }
    Ok(slots)
}

/// Whether the first symbol's name is less than that of the second, or there is no second.
fn is_below(modules: &[Module], symbol: Sym, other: Option<Sym>) -> bool
    ensures { IsTrue result ↔ IsBelow modules.now symbol other }
{
    match other {
        Some(other) => name_at(modules, symbol)
            .cmp(name_at(modules, other))
            .is_lt(),
        None => true,
    }
}

/// The least of the names that break the rule, once one more slot is looked at.
fn lesser(modules: &[Module], rule: NameRule, least: Option<Sym>, slot: &Slot) -> Option<Sym>
    ensures { (slots : Listing SlotValue) → IsLeastSlot modules.now rule slots least → IsLeastSlot modules.now rule (slots ++ slot.now ∷ []) result }
{
    if !slot.breaks(rule) {
        return least;
    }
    if is_below(modules, slot.canonical, least) {
        Some(slot.canonical)
    } else {
        least
    }
}

impl Table {
    /// The table of these modules, where the listed names are outside.
    pub(crate) fn of(
        alloc: Global,
        modules: &[Module],
        outside: &[Bytes],
    ) -> Result<Table, OutOfMemory>
        ensures { IfOk result (λ table. IsTable modules.now outside.now table.names table.slots) }
    {
        let Groups { names, groups } = Groups::of(alloc, modules)?;
        let marks = marks_of(alloc, modules)?;
        let outside = names_among(alloc, outside)?;
        let slots = slots_of(
            alloc,
            modules,
            marks.as_slice(),
            &outside,
            groups.as_slice(),
        )?;
        Ok(Table { names, slots })
    }

    /// The slot of a name, which is found by hash. `None` comes where no item has the external name.
    pub(crate) fn slot(&self, name: &[u8]) -> Option<&Slot>
        ensures { option_copied result ≡ slot_of self.now.names self.now.slots name.now }
    {
        match self.names.place_of(name) {
            Some(place) => self.slots.get(place),
            None => None,
        }
    }

    /// The symbol of the least name that breaks the rule.
    fn least(&self, modules: &[Module], rule: NameRule) -> Option<Sym>
        ensures { IsLeastSlot modules.now rule self.now.slots result }
    {
        let slots = self.slots.as_slice();
        let mut least = None;
        for slot in slots {
            least = lesser(modules, rule, least, slot);
        }
        least
    }

    /// The least name that breaks the rule.
    pub(crate) fn least_broken(
        &self,
        alloc: Global,
        modules: &[Module],
        rule: NameRule,
    ) -> Result<Option<Bytes>, OutOfMemory>
        ensures { IfOk result (λ least. (d : Deployment) → IsTable modules.now d.outside self.now.names self.now.slots → IsLeastName modules.now d (rule_of rule) least) }
    {
        match self.least(modules, rule) {
            Some(symbol) => Ok(Some(Bytes::from_slice(alloc, name_at(modules, symbol))?)),
            None => Ok(None),
        }
    }
}

//! Winnowed modules.
ghost use Rattle.std.specs.Prelude.{◌≡◌, ◌++◌, ◌+◌, ◌<◌, ◌^◌, Some, All, IfOk, OnOk, length, map, flat_map, slice_get};
ghost use Rattle.winnowed_form.specs.Items.{definition};
ghost use Rattle.winnowed_form.specs.Winnowed.{IsWinnowedModule};
ghost use Rattle.reach_prune.specs.Mirrors.Members.{IsWritable};
ghost use Rattle.reach_prune.specs.Mirrors.Noting.{HasItem};
ghost use Rattle.reach_prune.specs.Mirrors.Places.{HasRow, place_in, ArePlaced};
ghost use Rattle.reach_prune.specs.Mirrors.Shown.{shown};

use crate::declared::{Declared, declared_in_order};
use crate::defined::{definition_of, names_of};
use crate::grounds::Grounds;
use crate::notes::Notes;
use crate::places::Places;
use ir_syntax::{Item, Module};
use ir_types::{Copied, List, OutOfMemory};
use std::alloc::Global;
use winnowed_form::{Member, Named};

/// Gives names the places from 0 on.
fn places_of_names(alloc: Global, names: &[Named]) -> Result<Places, OutOfMemory>
    requires short { All HasRow names.now }
    ensures { IfOk result (ArePlaced names.now) }
{
    let mut places = Places::new(alloc);
    for (place, named) in names.iter().enumerate() {
        places.put(named, place)?;
    }
    Ok(places)
}

/// The names of definitions and, behind them, of declarations.
fn all_names(
    alloc: Global,
    mut names: List<Named>,
    declared: &[Declared],
) -> Result<List<Named>, OutOfMemory>
    ensures { IfOk result (λ all. all ≡ names ++ map (λ entry. entry.named) declared.now) }
{
    for entry in declared {
        names.push(entry.named.copy(alloc)?)?;
    }
    Ok(names)
}

fn definitions(
    alloc: Global,
    g: &Grounds<'_>,
    home: usize,
    places: &Places,
    members: &[Member],
) -> Result<List<Item>, OutOfMemory>
    requires writable { All (IsWritable (shown g.now) home) members.now }
    ensures { IfOk result (λ items. items ≡ flat_map (definition (shown g.now) home (place_in places.now)) members.now) }
{
    let mut items = List::new(alloc);
    for member in members {
        items.push(definition_of(alloc, g, home, places, member)?)?;
    }
    Ok(items)
}

/// The items with those of the declarations behind them.
fn with_declared(mut items: List<Item>, declared: Vec<Declared>) -> Result<List<Item>, OutOfMemory>
    ensures { IfOk result (λ all. all ≡ items ++ map (λ entry. entry.item) declared.items) }
{
    for entry in declared {
        items.push(entry.item)?;
    }
    Ok(items)
}

/// What a set of demands leaves of the module at the place `home`, where these are the members that it defines.
pub(crate) fn winnowed_module(
    alloc: Global,
    g: &Grounds<'_>,
    home: usize,
    module: &Module,
    members: &[Member],
) -> Result<Module, OutOfMemory>
    requires writable { All (IsWritable (shown g.now) home) members.now }
    ensures { IfOk result (IsWinnowedModule (shown g.now) members.now home module.now) }
{
    let mut notes = Notes::of(alloc, names_of(alloc, g, members)?)?;
    notes.note_members(alloc, g, home, members)?;
    let declared = declared_in_order(alloc, g, home, notes.declared.as_slice())?;
    let names = all_names(alloc, notes.into_defined(), declared.as_slice())?;
    let places = places_of_names(alloc, names.as_slice())?;
    let items = definitions(alloc, g, home, &places, members)?;
    Ok(Module {
        layout: Copied::copied(&module.layout, alloc)?,
        triple: Copied::copied(&module.triple, alloc)?,
        items: with_declared(items, declared)?,
    })
}

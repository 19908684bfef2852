//! Copies whose names are taken.
ghost use Rattle.std.specs.Prelude.{◌≡◌, ◌||◌, ℕ, List, true, false, All, IfOk, IfErr, OnOk, map, option_to_list};
ghost use Rattle.ir_syntax.specs.FormedBody.{item_name};
ghost use Rattle.ir_syntax.specs.Programs.{IsProgram};
ghost use Rattle.name_table.specs.Places.{is_among};
ghost use Rattle.demands.specs.Order.{symbol_of as symbol_in};
ghost use Rattle.demands.specs.Rows.{IsShortSymbol};
ghost use Rattle.winnowed_form.specs.Clashes.{item_names as names_of_items, copy_name_of, copy_names, AreFree};
ghost use Rattle.reach_prune.specs.Mirrors.Taken.{HaveNames, AreNew, IsTaken, IsFirst};
ghost use Rattle.reach_prune.specs.Mirrors.Shown.{shown};

use crate::copies::{is_copy, written_name};
use crate::declared::{name_of, symbol_of};
use crate::grounds::Grounds;
use interface::item_of;
use ir_syntax::{Item, Module};
use ir_types::{Bytes, OutOfMemory};
use name_table::Names;
use std::alloc::Global;
use winnowed_form::{Member, ShapeFault};

fn add_items(alloc: Global, names: &mut Names, items: &[Item]) -> Result<(), OutOfMemory>
    ensures { OnOk result ((name : List ℕ) → is_among name names.new ≡ (is_among name names.old || is_among name (map item_name items.now))) }
{
    for item in items {
        names.add(alloc, name_of(item))?;
    }
    Ok(())
}

/// The names of all items.
fn item_names(alloc: Global, modules: &[Module]) -> Result<Names, OutOfMemory>
    ensures { IfOk result (HaveNames (names_of_items modules.now)) }
{
    let mut names = Names::new(alloc);
    for module in modules {
        add_items(alloc, &mut names, module.items.as_slice())?;
    }
    Ok(names)
}

/// A copy's name.
fn name_of_copy(
    alloc: Global,
    g: &Grounds<'_>,
    member: &Member,
) -> Result<Option<Bytes>, OutOfMemory>
    requires short { IsShortSymbol (symbol_in member.now.demand) }
    ensures { IfOk result (λ name. option_to_list name ≡ copy_name_of (shown g.now) member.now) }
{
    if !is_copy(g, &member.demand) {
        return Ok(None);
    }
    match item_of(g.program, symbol_of(&member.demand)) {
        Some(Item::Func(func)) => Ok(Some(written_name(alloc, g, &member.demand, func)?)),
        Some(Item::Var(_)) => Ok(None),
        None => Ok(None),
    }
}

fn check_member(
    alloc: Global,
    g: &Grounds<'_>,
    taken: &Names,
    member: &Member,
) -> Result<(), ShapeFault>
    requires short { IsShortSymbol (symbol_in member.now.demand) }
    ensures free { OnOk result (AreNew taken.now (copy_name_of (shown g.now) member.now)) }
    ensures taken { IfErr result (IsTaken taken.now (copy_name_of (shown g.now) member.now)) }
{
    let name = match name_of_copy(alloc, g, member) {
        Ok(name) => name,
        Err(_) => return Err(ShapeFault::OutOfMemory),
    };
    match name {
        Some(symbol) => {
            if taken.place_of(symbol.as_slice()).is_some() {
                Err(ShapeFault::NameClash { symbol })
            } else {
                Ok(())
            }
        }
        None => Ok(()),
    }
}

/// Refuses the first copy whose name is taken, where these are the names of all items.
fn check_members(
    alloc: Global,
    g: &Grounds<'_>,
    taken: &Names,
    members: &[Member],
) -> Result<(), ShapeFault>
    requires short { All (λ member. IsShortSymbol (symbol_in member.demand)) members.now }
    requires have { HaveNames (names_of_items g.now.program.now.modules) taken.now }
    ensures free { OnOk result (AreFree g.now.program.now.modules (copy_names (shown g.now) members.now)) }
    ensures clash { IfErr result (IsFirst g.now.program.now.modules (copy_names (shown g.now) members.now)) }
{
    for member in members {
        match check_member(alloc, g, taken, member) {
            Ok(()) => {}
            Err(fault) => return Err(fault),
        }
    }
    Ok(())
}

/// Refuses the first copy whose name is an item's.
pub(crate) fn check_names(
    alloc: Global,
    g: &Grounds<'_>,
    members: &[Member],
) -> Result<(), ShapeFault>
    requires short { All (λ member. IsShortSymbol (symbol_in member.demand)) members.now }
    ensures free { OnOk result (AreFree g.now.program.now.modules (copy_names (shown g.now) members.now)) }
    ensures clash { IfErr result (IsFirst g.now.program.now.modules (copy_names (shown g.now) members.now)) }
    ensures program { IsProgram g.now.program.now }
{
    match item_names(alloc, g.program.modules()) {
        Ok(taken) => check_members(alloc, g, &taken, members),
        Err(_) => Err(ShapeFault::OutOfMemory),
    }
}

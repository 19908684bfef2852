//! Definitions as they are written.
ghost use Rattle.std.specs.Prelude.{◌≡◌, [], ◌∷◌, All, IfOk, IfSome, IsSome, map};
ghost use Rattle.demands.specs.Order.{symbol_of as symbol_in};
ghost use Rattle.demands.specs.Rows.{IsShortSymbol};
ghost use Rattle.winnowed_form.specs.Names.{name_of as name_in};
ghost use Rattle.winnowed_form.specs.Items.{written_var as var_written, written_func as func_written, definition};
ghost use Rattle.reach_prune.specs.Mirrors.Members.{HasFewIn, HasFewBody, IsWritable};
ghost use Rattle.reach_prune.specs.Mirrors.Places.{HasRow, place_in};
ghost use Rattle.reach_prune.specs.Mirrors.Shown.{shown};

use crate::bodies::{Setting, written_body};
use crate::constants::moved_init;
use crate::copies::{is_copy, staying, written_name};
use crate::declared::symbol_of;
use crate::grounds::Grounds;
use crate::kept::kept_params;
use crate::places::Places;
use demands::Demand;
use interface::item_of;
use ir_syntax::{Body, Func, Item, Var};
use ir_types::{Copied, List, OutOfMemory};
use std::alloc::Global;
use winnowed_form::{Member, Named, copied_demand};

/// What a member is written as.
fn name_of(alloc: Global, g: &Grounds<'_>, member: &Member) -> Result<Named, OutOfMemory>
    requires short { IsShortSymbol (symbol_in member.now.demand) }
    ensures name { IfOk result (λ named. named ≡ name_in (shown g.now) member.now) }
    ensures short { IfOk result HasRow }
{
    if is_copy(g, &member.demand) {
        Ok(Named::CopyOf(copied_demand(alloc, &member.demand)?))
    } else {
        Ok(Named::Own(symbol_of(&member.demand).item))
    }
}

/// What members are written as.
pub(crate) fn names_of(
    alloc: Global,
    g: &Grounds<'_>,
    members: &[Member],
) -> Result<List<Named>, OutOfMemory>
    requires short { All (λ member. IsShortSymbol (symbol_in member.demand)) members.now }
    ensures names { IfOk result (λ names. names ≡ map (name_in (shown g.now)) members.now) }
    ensures short { IfOk result (All HasRow) }
{
    let mut names = List::new(alloc);
    for member in members {
        names.push(name_of(alloc, g, member)?)?;
    }
    Ok(names)
}

fn written_var(alloc: Global, places: &Places, var: &Var) -> Result<Var, OutOfMemory>
    ensures { IfOk result (λ made. made ≡ var_written (place_in places.now) var.now) }
{
    Ok(Var {
        name: var.name.copy(alloc)?,
        linkage: var.linkage,
        constant: var.constant,
        ty: var.ty.copied(alloc)?,
        init: moved_init(alloc, places, &var.init)?,
        align: var.align,
    })
}

fn written_func(
    alloc: Global,
    g: &Grounds<'_>,
    home: usize,
    places: &Places,
    d: &Demand,
    func: &Func,
    body: &Body,
) -> Result<Func, OutOfMemory>
    requires short { IsShortSymbol (symbol_in d.now) }
    requires few { All HasFewIn body.now.blocks }
    ensures { IfOk result (λ made. made ≡ func_written (shown g.now) home (place_in places.now) d.now func.now body.now) }
{
    let stays = staying(alloc, g, d, func)?;
    let setting = Setting {
        grounds: g,
        home,
        places,
        stays: &stays,
    };
    Ok(Func {
        name: written_name(alloc, g, d, func)?,
        linkage: func.linkage,
        returns: func.returns,
        ret_ext: func.ret_ext,
        params: kept_params(alloc, &stays, func.params.as_slice())?,
        variadic: func.variadic,
        body: Some(written_body(alloc, &setting, body)?),
    })
}

fn definition_of_func(
    alloc: Global,
    g: &Grounds<'_>,
    home: usize,
    places: &Places,
    member: &Member,
    func: &Func,
) -> Result<Func, OutOfMemory>
    requires short { IsShortSymbol (symbol_in member.now.demand) }
    requires few { HasFewBody member.now }
    requires has_body { IsSome member.now.body }
    ensures { IfOk result (λ made. IfSome member.now.body (λ body. made ≡ func_written (shown g.now) home (place_in places.now) member.now.demand func.now body)) }
{
    match &member.body {
        Some(body) => written_func(alloc, g, home, places, &member.demand, func, body),
        None => unreachable!(),
    }
}

/// The definition of a member of the module `home` as it is written.
pub(crate) fn definition_of(
    alloc: Global,
    g: &Grounds<'_>,
    home: usize,
    places: &Places,
    member: &Member,
) -> Result<Item, OutOfMemory>
    requires writable { IsWritable (shown g.now) home member.now }
    ensures { IfOk result (λ item. definition (shown g.now) home (place_in places.now) member.now ≡ item ∷ []) }
{
    match &member.demand {
        Demand::Var { var: symbol } => match item_of(g.program, *symbol) {
            Some(Item::Var(var)) => Ok(Item::Var(written_var(alloc, places, var)?)),
            Some(Item::Func(_)) => unreachable!(),
            None => unreachable!(),
        },
        Demand::Func { func: symbol, .. } => match item_of(g.program, *symbol) {
            Some(Item::Func(func)) => {
                let made = definition_of_func(alloc, g, home, places, member, func)?;
                Ok(Item::Func(made))
            }
            Some(Item::Var(_)) => unreachable!(),
            None => unreachable!(),
        },
    }
}

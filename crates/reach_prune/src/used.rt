//! What members name.
ghost use Rattle.std.specs.Prelude.{◌≡◌, ◌++◌, [], Some, All, IfOk, MatchOption, map, option_to_list};
ghost use Rattle.std.specs.List.{filter_map};
ghost use Rattle.interface.specs.Names.{HasFewArgs};
ghost use Rattle.winnowed_form.specs.declared.named.Named.TheVariants as written;
ghost use Rattle.winnowed_form.specs.Names.{inst_name, block_uses, body_uses, item_uses, uses as used_by};
ghost use Rattle.reach_prune.specs.Mirrors.Members.{HasFewIn, HasFewBody};
ghost use Rattle.reach_prune.specs.Mirrors.Shown.{shown};

use crate::calls::call_name;
use crate::grounds::Grounds;
use demands::Demand;
use interface::{call_of, item_of, names_of_block};
use ir_syntax::{Block, Body, Inst, Item};
use ir_types::{List, OutOfMemory};
use std::alloc::Global;
use winnowed_form::{Member, Named};

/// Adds the names of the module's own items at these places.
fn add_own(mut names: List<Named>, places: &[usize]) -> Result<List<Named>, OutOfMemory>
    ensures { IfOk result (λ all. all ≡ names ++ map written.Own places.now) }
{
    for place in places {
        names.push(Named::Own(*place))?;
    }
    Ok(names)
}

/// Adds what an instruction of a residual body calls by a name.
fn add_call(
    alloc: Global,
    mut names: List<Named>,
    g: &Grounds<'_>,
    home: usize,
    inst: &Inst,
) -> Result<List<Named>, OutOfMemory>
    requires few { HasFewArgs inst.now }
    ensures { IfOk result (λ all. all ≡ names ++ option_to_list (inst_name (shown g.now) home inst.now)) }
{
    match call_of(inst) {
        Some((place, args)) => {
            let named = call_name(alloc, g, home, place, args)?;
            names.push(named)?;
            Ok(names)
        }
        None => Ok(names),
    }
}

fn add_calls(
    alloc: Global,
    mut names: List<Named>,
    g: &Grounds<'_>,
    home: usize,
    insts: &[Inst],
) -> Result<List<Named>, OutOfMemory>
    requires few { All HasFewArgs insts.now }
    ensures { IfOk result (λ all. all ≡ names ++ filter_map (inst_name (shown g.now) home) insts.now) }
{
    for inst in insts {
        names = add_call(alloc, names, g, home, inst)?;
    }
    Ok(names)
}

fn add_block(
    alloc: Global,
    names: List<Named>,
    g: &Grounds<'_>,
    home: usize,
    block: &Block,
) -> Result<List<Named>, OutOfMemory>
    requires few { HasFewIn block.now }
    ensures { IfOk result (λ all. all ≡ names ++ block_uses (shown g.now) home block.now) }
{
    let names = add_calls(alloc, names, g, home, block.insts.as_slice())?;
    let places = names_of_block(List::new(alloc), block)?;
    add_own(names, places.as_slice())
}

fn add_body(
    alloc: Global,
    mut names: List<Named>,
    g: &Grounds<'_>,
    home: usize,
    body: &Body,
) -> Result<List<Named>, OutOfMemory>
    requires few { All HasFewIn body.now.blocks }
    ensures { IfOk result (λ all. all ≡ names ++ body_uses (shown g.now) home (Some body.now)) }
{
    for block in body.blocks.as_slice() {
        names = add_block(alloc, names, g, home, block)?;
    }
    Ok(names)
}

/// What an initialiser names.
fn names_of_item(alloc: Global, item: Option<&Item>) -> Result<List<Named>, OutOfMemory>
    ensures { IfOk result (λ all. MatchOption item.entry (all ≡ []) (λ found. all ≡ item_uses (Some found.now))) }
{
    match item {
        Some(Item::Var(var)) => match &var.init {
            Some(constant) => {
                let places = constant.add_names(List::new(alloc))?;
                add_own(List::new(alloc), places.as_slice())
            }
            None => Ok(List::new(alloc)),
        },
        Some(Item::Func(_)) => Ok(List::new(alloc)),
        None => Ok(List::new(alloc)),
    }
}

/// What a member of the module `home` names.
pub(crate) fn uses(
    alloc: Global,
    g: &Grounds<'_>,
    home: usize,
    member: &Member,
) -> Result<List<Named>, OutOfMemory>
    requires few { HasFewBody member.now }
    ensures { IfOk result (λ all. all ≡ used_by (shown g.now) home member.now) }
{
    match &member.demand {
        Demand::Var { var } => names_of_item(alloc, item_of(g.program, *var)),
        Demand::Func { .. } => match &member.body {
            Some(body) => add_body(alloc, List::new(alloc), g, home, body),
            None => Ok(List::new(alloc)),
        },
    }
}

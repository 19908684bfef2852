//! Assignments as text.
ghost use Rattle.std.specs.Prelude.{◌≡◌};
ghost use Rattle.ir_syntax.specs.SoundFunctions.{IsSoundFunction};
ghost use Rattle.fold_facts.specs.OfFunction.{IsAssignmentOf};

use fold_facts::{Assignment, Fact, assignments_have_places, is_closed};
use ir_syntax::{Body, Func};
use ir_types::Known;
use std::alloc::Global;

fn fact_text(alloc: Global, fact: Fact) -> anyhow::Result<String> {
    match fact {
        Fact::Unreached => Ok(String::from_str(alloc, " -")?),
        Fact::One(Known::Num(number)) => Ok(format!(in alloc; " {number}")?),
        Fact::One(Known::Null) => Ok(String::from_str(alloc, " null")?),
        Fact::One(Known::Unknown) => Ok(String::from_str(alloc, " ?")?),
        Fact::Varying => Ok(String::from_str(alloc, " *")?),
    }
}

fn add_facts(
    alloc: Global,
    text: &mut String,
    func: &Func,
    body: &Body,
    a: &Assignment,
) -> anyhow::Result<()>
    requires of { IsAssignmentOf func.now a.now }
    requires body { func.now.body ≡ Some body.now }
{
    assignments_have_places();
    for k in 0..body.count() {
        if body.reg_type(k).is_some() {
            text.push_str(fact_text(alloc, a.fact(k))?.as_str())?;
        }
    }
    Ok(())
}

fn add_edges(
    alloc: Global,
    text: &mut String,
    func: &Func,
    body: &Body,
    a: &Assignment,
) -> anyhow::Result<()>
    requires of { IsAssignmentOf func.now a.now }
    requires body { func.now.body ≡ Some body.now }
{
    assignments_have_places();
    for (place, block) in body.blocks.as_slice().iter().enumerate() {
        for k in 0..block.term.successor_count() {
            if a.edge(place, k) {
                text.push_str(format!(in alloc; " {place}.{k}")?.as_str())?;
            }
        }
    }
    Ok(())
}

/// The facts of the results and the reached edges, and whether the assignment is closed.
pub(crate) fn shown(
    alloc: Global,
    func: &Func,
    known: &[Known],
    a: &Assignment,
) -> anyhow::Result<String>
    requires sound { IsSoundFunction func.now }
    requires of { IsAssignmentOf func.now a.now }
{
    let mut text = String::from_str(alloc, "facts")?;
    match &func.body {
        Some(body) => {
            add_facts(alloc, &mut text, func, body, a)?;
            text.push_str(", edges")?;
            add_edges(alloc, &mut text, func, body, a)?;
        }
        None => {}
    }
    if is_closed(func, known, a) {
        text.push_str(", closed")?;
    }
    Ok(text)
}

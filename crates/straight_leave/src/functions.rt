//! What is left of functions and of items.
ghost use Rattle.std.specs.Prelude.{◌≡◌, slice_get, if◌then◌else◌, IfOk, option_map};
ghost use Rattle.demands.specs.Names.{copy_name};
ghost use Rattle.straight_plan.specs.Left.{at_unknown, is_entry as is_entry_of};
ghost use Rattle.straight_leave.specs.Places.{place_in as place_among_rows};
ghost use Rattle.straight_leave.specs.Rewritten.{new_body, new_func, new_items};

use crate::body::left_body;
use crate::facts::are_unknown;
use demand_core::Row;
use demands::clone_name;
use indexmap::IndexSet;
use ir_syntax::{Func, Item, Param};
use ir_types::{Bytes, Copied, Known, OutOfMemory};
use sqlite_items::{Items as List, at};
use std::alloc::Global;
use straight_plan::{Ask, Cut};

/// Whether this is the entry that is left for known arguments: it keeps its name and all its parameters.
pub(crate) fn is_entry(start: &Ask, ask: &Ask) -> bool
    ensures { result ≡ is_entry_of start.now ask.now }
{
    ask.place == start.place && !are_unknown(start.pattern.items())
}

/// Of the parameters those that are unknown.
fn unknown_params(
    alloc: Global,
    pattern: &[Known],
    params: &[Param],
) -> Result<List<Param>, OutOfMemory>
    ensures { IfOk result (λ left. left ≡ at_unknown pattern.now params.now) }
{
    let mut left = List::new(alloc);
    for (k, param) in params.iter().enumerate() {
        match at(pattern, k).copied() {
            Some(Known::Unknown) => left.push(*param)?,
            Some(Known::Num(_)) => {}
            Some(Known::Null) => {}
            None => {}
        }
    }
    Ok(left)
}

fn left_params(
    alloc: Global,
    whole: bool,
    pattern: &[Known],
    params: &List<Param>,
) -> Result<List<Param>, OutOfMemory>
    ensures { IfOk result (λ left. left ≡ (if whole then params.now else at_unknown pattern.now params.now)) }
{
    if whole {
        return params.copied(alloc);
    }
    unknown_params(alloc, pattern, params.as_slice())
}

fn left_name(alloc: Global, whole: bool, cut: &Cut, name: &[u8]) -> Result<Bytes, OutOfMemory>
    ensures { IfOk result (λ left. left ≡ (if whole then name.now else copy_name cut.now.ask.pattern name.now)) }
{
    if whole {
        return Bytes::from_slice(alloc, name);
    }
    clone_name(alloc, &cut.ask.pattern, name)
}

fn left_func(
    alloc: Global,
    items: &[Item],
    rows: &IndexSet<Row>,
    whole: bool,
    cut: &Cut,
    func: &Func,
) -> Result<Func, OutOfMemory>
    ensures { IfOk result (λ left. left ≡ new_func items.now (place_among_rows rows.now.keys) whole cut.now func.now) }
{
    let name = left_name(alloc, whole, cut, func.name.as_slice())?;
    let params = left_params(alloc, whole, cut.ask.pattern.items(), &func.params)?;
    let body = match &func.body {
        Some(body) => Some(left_body(alloc, items, rows, whole, cut, body)?),
        None => None,
    };
    Ok(Func {
        name,
        linkage: func.linkage,
        returns: func.returns,
        ret_ext: func.ret_ext,
        params,
        variadic: func.variadic,
        body,
    })
}

/// The functions and copies of a plan, in its order, where calls name them by their rows.
pub(crate) fn left_items(
    alloc: Global,
    items: &[Item],
    rows: &IndexSet<Row>,
    start: &Ask,
    plan: &[Cut],
) -> Result<List<Item>, OutOfMemory>
    ensures { IfOk result (λ left. left ≡ new_items items.now (place_among_rows rows.now.keys) start.now plan.now) }
{
    let mut left = List::new(alloc);
    for cut in plan {
        let whole = is_entry(start, &cut.ask);
        match at(items, cut.ask.place) {
            Some(Item::Func(func)) => {
                let func = left_func(alloc, items, rows, whole, cut, func)?;
                left.push(Item::Func(func))?;
            }
            Some(Item::Var(_)) => {}
            None => {}
        }
    }
    Ok(left)
}

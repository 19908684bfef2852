//! The least plan of an entry.
ghost use Rattle.std.specs.Prelude.{◌≡◌, IfOk, reverse, slice_get};
ghost use Rattle.std.specs.List.{filter_map};
ghost use Rattle.std.specs.List.Sorted.{IsPermutation, IsSortedByKey};
ghost use Rattle.demands.specs.Demands.{IsFunctionFor};
ghost use Rattle.demands.specs.Order.{demand_order};
ghost use Rattle.straight_plan.specs.Asked.{program_items, root};
ghost use Rattle.straight_plan.specs.Left.{AreTooMany, IsPlanned, IsTooMuch};
ghost use Rattle.straight_fold.specs.Expansion.{cut_of};

use crate::calls::row_at;
use crate::expander::Expander;
use crate::items::items_of;
use crate::piece::{Found, Piece};
use crate::root::root_in;
use demand_core::Row;
use demands::{Demand, demand_cmp, demands_are_ordered, rows_are_read};
use fixed_point::{FixFault, least, rows_are_needed_in_any_order};
use ir_types::{Known, List, OutOfMemory};
use std::alloc::Global;
use straight_plan::{Ask, Cut, StraightProgram};

/// The functions of the pieces, last first.
fn functions_of(alloc: Global, mut pairs: List<(Row, Piece)>) -> Result<Vec<Found>, OutOfMemory>
    ensures { IfOk result (λ found. found.items ≡ filter_map (λ pair. pair.1.found) (reverse pairs)) }
{
    let mut found = Vec::new(alloc);
    while let Some((_, piece)) = pairs.pop() {
        let Piece {
            found: function,
            ..
        } = piece;
        match function {
            Some(function) => found.push(function)?,
            None => {}
        }
    }
    Ok(found)
}

/// The functions in the order of demands.
fn in_demand_order(mut found: Vec<Found>) -> Result<Vec<Found>, OutOfMemory>
    ensures same { IfOk result (λ sorted. IsPermutation found.items sorted.items) }
    ensures order { IfOk result (λ sorted. IsSortedByKey (λ one. one.demand) demand_order sorted.items) }
{
    found.sort_by(|a, b| demand_cmp(&a.demand, &b.demand))?;
    Ok(found)
}

fn cut_of(found: Found) -> Option<Cut>
    ensures { result ≡ cut_of found }
{
    let Found { demand, facts } = found;
    match demand {
        Demand::Func { func, pattern } => {
            let ask = Ask {
                place: func.item,
                pattern,
            };
            Some(Cut { ask, facts })
        }
        Demand::Var { .. } => None,
    }
}

fn cuts_of(alloc: Global, found: Vec<Found>) -> Result<List<Cut>, OutOfMemory>
    ensures { IfOk result (λ cuts. cuts ≡ filter_map cut_of found.items) }
{
    let cuts = found
        .into_iter()
        .filter_map(|one| cut_of(one))
        .collect(alloc)?;
    Ok(List::from_vec(cuts))
}

/// The functions and copies that the entry at a place needs, where this is known of its arguments, with what folding knows
/// of their results, in the order of demands: the least set that holds the entry and, with each function or copy, what the
/// calls of its body ask for once known values are put in.
///
/// `TooManyDemands` comes exactly where more than 65,536 are needed, and `TooMuchCode` exactly where at most so many are
/// needed and their bodies keep more than 8,388,608 instructions and terminators together. `OutOfMemory` may come in place
/// of any answer.
pub fn plan(
    alloc: Global,
    program: &StraightProgram,
    place: usize,
    args: &[Known],
) -> Result<List<Cut>, FixFault>
    requires entry { IsFunctionFor args.now (slice_get (program_items program.now) place) }
    ensures planned { IfOk result (IsPlanned (program_items program.now) (root (program_items program.now) place args.now)) }
    ensures too_many { result ≡ Err FixFault.TooManyDemands → AreTooMany (program_items program.now) (root (program_items program.now) place args.now) }
    ensures too_much { result ≡ Err FixFault.TooMuchCode → IsTooMuch (program_items program.now) (root (program_items program.now) place args.now) }
{
    demands_are_ordered();
    rows_are_read();
    rows_are_needed_in_any_order();
    let root = root_in(alloc, items_of(program), place, args)?;
    let rows = [row_at(root.place, root.pattern)];
    let expander = Expander { program };
    let pairs = match least(alloc, &expander, &rows, List::new(alloc)) {
        Ok(pairs) => pairs,
        Err(fault) => return Err(fault),
    };
    let found = in_demand_order(functions_of(alloc, pairs)?)?;
    Ok(cuts_of(alloc, found)?)
}

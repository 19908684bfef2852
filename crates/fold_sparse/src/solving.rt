//! The least closed assignment, by a worklist.
ghost use Rattle.std.specs.Prelude.{◌≡◌, ◌+◌, ◌≤◌, IfOk, OnOk};
ghost use Rattle.ir_syntax.specs.SoundFunctions.{IsSoundFunction};
ghost use Rattle.fold_facts.specs.Places.{blocks_of as blocks_in};
ghost use Rattle.fold_facts.specs.Closed.{IsLeastClosed};
ghost use Rattle.fold_facts.specs.OfFunction.{AreKnownOf, IsAssignmentOf};
ghost use Rattle.fold_sparse.specs.Bound.{most_transfers};

use crate::looking::blocks_of;
use crate::plan::Plan;
use crate::search::Search;
use fold_facts::Assignment;
use ir_syntax::Func;
use ir_types::{Known, OutOfMemory};
use occam_base::Steps;
use std::alloc::Global;
use std::sync::ledger::Ledger;

/// The least closed assignment of a function, where `known` is known of its parameters, as `fold_facts::solve_plain` gives it.
///
/// It is found by sparse conditional constant propagation (M. N. Wegman and F. K. Zadeck, Constant propagation with conditional
/// branches, 1991). Each phi entry, instruction and terminator is looked at once its edge or block is reached, and again each time
/// that the fact of a result rises that it reads; a fact rises twice at most. Each look counts one step, so that there are at most
/// as many as the function has phis, instructions and terminators, and three more for each operand, those of phis' entries too.
///
/// The function is to be formed, well typed and definite by itself, and `known` is to have one item for each parameter:
/// unknown, or a value of its type. `OutOfMemory` says that the allocator refused memory.
pub fn solve<L: Ledger>(
    alloc: Global,
    f: &Func,
    known: &[Known],
    steps: &mut Steps<L>,
) -> Result<Assignment, OutOfMemory>
    requires known { AreKnownOf f.now known.now }
    requires sound { IsSoundFunction f.now }
    ensures of { IfOk result (IsAssignmentOf f.now) }
    ensures least { IfOk result (IsLeastClosed (record { known = known.now }) (blocks_in f.now)) }
    ensures bound { OnOk result (steps.new ≤ steps.old + most_transfers f.now) }
{
    let blocks = blocks_of(f);
    let plan = Plan::of(alloc, blocks)?;
    let mut search = Search::new(alloc, f, &plan)?;
    search.open_all(blocks, &plan.looks, plan.homes.group(0))?;
    search.run(f, known, &plan, steps)?;
    Ok(search.a)
}

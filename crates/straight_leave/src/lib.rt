//! What is left of a module of straight-line functions: the functions and copies of a plan, as a module.
#![tactic(auto)]

ghost use Rattle.std.specs.Prelude.{◌≡◌, IfOk};
ghost use Rattle.ir_syntax.specs.Straight.{IsStraight};
ghost use Rattle.straight_plan.specs.Left.{IsPlan, left_module};

mod body;
mod calls;
mod counts;
mod facts;
mod functions;
mod laws;
mod numbers;
mod places;

use crate::functions::left_items;
use crate::places::rows_of;
pub use counts::{clones, originals};
use demands::{demands_are_ordered, rows_are_apart};
use ir_syntax::Module;
use ir_types::{Copied, OutOfMemory};
pub use laws::what_is_left_is_straight;
use std::alloc::Global;
use straight_plan::{Ask, Cut};

/// The module that is left of a module of straight-line functions by a plan for what is asked for at the start: each
/// function and copy of the plan, in the order of the plan. Known values are put in, additions with a known value are
/// left out, calls name what they ask for and keep the arguments of which nothing is known, and parameters and results
/// are numbered anew. `OutOfMemory` says that the allocator refused memory.
pub fn leave(alloc: Global, m: &Module, start: &Ask, plan: &[Cut]) -> Result<Module, OutOfMemory>
    requires straight { IsStraight m.now }
    requires plan { IsPlan m.now.items start.now plan.now }
    ensures { IfOk result (λ left. left ≡ left_module m.now start.now plan.now) }
{
    demands_are_ordered();
    rows_are_apart();
    let rows = rows_of(alloc, plan)?;
    let items = left_items(alloc, m.items.as_slice(), &rows, start, plan)?;
    Ok(Module {
        layout: Copied::copied(&m.layout, alloc)?,
        triple: Copied::copied(&m.triple, alloc)?,
        items,
    })
}

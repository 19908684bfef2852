//! What the entry is asked for with.
ghost use Rattle.std.specs.Prelude.{◌≡◌, ◌≤◌, IfOk, length, slice_get};
ghost use Rattle.demands.specs.Demands.{IsFunctionFor};
ghost use Rattle.straight_plan.specs.Asked.{program_items, root};
ghost use Rattle.straight_fold.specs.Items.{AreStraightItems};

use crate::calls::{asked_pattern, forgotten};
use crate::items::{is_named, items_of};
use ir_syntax::Item;
use ir_types::{Known, OutOfMemory};
use std::alloc::Global;
use straight_plan::{Ask, StraightProgram};

/// The same among the program's items.
pub(crate) fn root_in(
    alloc: Global,
    items: &[Item],
    place: usize,
    args: &[Known],
) -> Result<Ask, OutOfMemory>
    requires straight { AreStraightItems items.now }
    requires few { length args.now ≤ 32 }
    ensures { IfOk result (λ ask. ask ≡ root items.now place args.now) }
{
    let pattern = if is_named(items, place) {
        forgotten(alloc, args)?
    } else {
        asked_pattern(alloc, items, place, args)?
    };
    Ok(Ask { place, pattern })
}

/// What the entry at a place is asked for with, where this is known of its arguments: nothing is known where some body
/// names the entry, or where its name is too long for a copy. `OutOfMemory` says that the allocator refused memory.
pub fn root_of(
    alloc: Global,
    program: &StraightProgram,
    place: usize,
    args: &[Known],
) -> Result<Ask, OutOfMemory>
    requires entry { IsFunctionFor args.now (slice_get (program_items program.now) place) }
    ensures { IfOk result (λ ask. ask ≡ root (program_items program.now) place args.now) }
{
    root_in(alloc, items_of(program), place, args)
}

//! The least closed assignment, by rounds over all places.
ghost use Rattle.std.specs.Prelude.{◌≡◌, ◌<◌, ◌^◌, All, length, IfOk};
ghost use Rattle.ir_syntax.specs.SoundFunctions.{IsSoundFunction};
ghost use Rattle.fold_facts.specs.declared.fact.Fact.TheVariants.{Unreached};
ghost use Rattle.fold_facts.specs.Places.{blocks_of as blocks_in};
ghost use Rattle.fold_facts.specs.Closed.{IsLeastClosed};
ghost use Rattle.fold_facts.specs.OfFunction.{AreKnownOf, IsAssignmentOf, IsAssignmentIn, results_in};
ghost use Rattle.fold_facts.specs.Raising.{SaysItsTypes, blank};

use crate::raising::raise_all;
use crate::says::blocks_of;
use crate::{Assignment, Fact};
use ir_syntax::{Block, Func};
use ir_types::{Known, OutOfMemory};
use std::alloc::Global;

/// Raises a blank assignment, in which no result is reached, until it is closed.
fn settle(a: &mut Assignment, known: &[Known], blocks: &[Block])
    requires start { a.old ≡ blank blocks.now Unreached }
    requires few { length (results_in blocks.now) < 2 ^ 64 }
    requires typed { All (SaysItsTypes (record { known = known.now }) (results_in blocks.now)) blocks.now }
    ensures fits { IsAssignmentIn blocks.now a.new }
    ensures least { IsLeastClosed (record { known = known.now }) blocks.now a.new }
{
    let mut changed = true;
    while changed {
        changed = raise_all(a, known, blocks);
    }
}

/// The least closed assignment of a function, where `known` is known of its parameters: each place of a reached block has
/// what it asks for, and each fact is at most, and each reached edge reached, as in every assignment of which that holds. It
/// goes in rounds over all places until none asks for more.
///
/// The function is to be formed, well typed and definite by itself, and `known` is to have one item for each parameter:
/// unknown, or a value of its type. `OutOfMemory` says that the allocator refused memory.
pub fn solve_plain(alloc: Global, f: &Func, known: &[Known]) -> Result<Assignment, OutOfMemory>
    requires known { AreKnownOf f.now known.now }
    requires sound { IsSoundFunction f.now }
    ensures of { IfOk result (IsAssignmentOf f.now) }
    ensures least { IfOk result (IsLeastClosed (record { known = known.now }) (blocks_in f.now)) }
{
    let blocks = blocks_of(f);
    let mut a = Assignment::blank(alloc, blocks, Fact::Unreached)?;
    settle(&mut a, known, blocks);
    Ok(a)
}

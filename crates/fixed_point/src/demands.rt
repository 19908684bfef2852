//! The needed rows with their pieces.
ghost use Rattle.std.specs.Prelude.{◌≡◌, ◌≤◌, [], All, IfOk, OnOk, map, length, sum_by};
ghost use Rattle.std.specs.Ordering.{nat_cmp};
ghost use Rattle.std.specs.Cmp.Lexicographic.{slice_cmp};
ghost use Rattle.std.specs.List.Sorted.{IsStrictlySortedBy};
ghost use Rattle.fixed_point.specs.Needs.{AreAllNeeded, IsFinite, NeedsMoreThan, WeighsMoreThan};

use crate::search::{Kept, add_all, expanded, in_row_order};
use crate::{FixFault, MOST_CODE, MOST_DEMANDS};
use demand_core::{Expand, Row};
use indexmap::IndexSet;
use ir_types::List;
use std::alloc::Global;

/// The needed rows with their pieces, in row order: the least set of rows that holds the roots and, with each row, those
/// that its piece needs. `given` is empty.
///
/// `TooManyDemands` comes exactly where more than 65,536 rows are needed, and `TooMuchCode` exactly where at most so many
/// are needed and the sizes of their pieces add to more than 8,388,608; `OutOfMemory` may come in place of any answer.
pub fn least<E: Expand>(
    alloc: Global,
    e: &E,
    roots: &[Row],
    given: List<(Row, E::Piece)>,
) -> Result<List<(Row, E::Piece)>, FixFault>
    requires { given ≡ [] }
    ensures order { IfOk result (λ pairs. IsStrictlySortedBy (slice_cmp nat_cmp) (map (λ pair. pair.0) pairs)) }
    ensures rows { IfOk result (λ pairs. AreAllNeeded (E.needs_of e.now) roots.now (map (λ pair. pair.0) pairs)) }
    ensures pieces { IfOk result (λ pairs. All (λ pair. E.expands e.now pair.0 pair.1) pairs) }
    ensures few { IfOk result (λ pairs. length pairs ≤ 65536) }
    ensures small { IfOk result (λ pairs. sum_by (λ pair. E.size_of e.now pair.0) pairs ≤ 8388608) }
    ensures finite { OnOk result (IsFinite (E.needs_of e.now) roots.now) }
    // Each refusal comes exactly where its cause holds.
    ensures too_many { result ≡ Err FixFault.TooManyDemands → NeedsMoreThan (E.needs_of e.now) roots.now 65536 }
    ensures too_much { result ≡ Err FixFault.TooMuchCode → WeighsMoreThan (E.needs_of e.now) (E.size_of e.now) roots.now 8388608 }
    ensures too_much_of_few { result ≡ Err FixFault.TooMuchCode → ¬ NeedsMoreThan (E.needs_of e.now) roots.now 65536 }
    ensures not_too_many { OnOk result (¬ NeedsMoreThan (E.needs_of e.now) roots.now 65536) }
    ensures not_too_much { OnOk result (¬ WeighsMoreThan (E.needs_of e.now) (E.size_of e.now) roots.now 8388608) }
{
    drop(given);
    let mut found = IndexSet::new(alloc);
    add_all(&mut found, roots)?;
    let mut kept = Kept::new(alloc);
    let mut at = 0;
    while at < found.len() {
        if found.len() > MOST_DEMANDS {
            return Err(FixFault::TooManyDemands);
        }
        let row = found[at];
        let piece = expanded(alloc, e, &row)?;
        add_all(&mut found, e.needs(&piece))?;
        let size = e.size(&piece);
        kept.add(alloc, row, piece, size)?;
        at += 1;
    }
    if kept.size > MOST_CODE {
        return Err(FixFault::TooMuchCode);
    }
    Ok(in_row_order(kept.pairs)?)
}

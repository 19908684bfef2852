//! The rows that were found, in the order in which they were found.
ghost use Rattle.std.specs.Prelude.{◌≡◌, ◌+◌, ◌-◌, ◌^◌, ◌<◌, ◌≤◌, [], ◌∷◌, ◌++◌, min, OnOk, IfOk};
ghost use Rattle.std.specs.Ordering.{nat_cmp};
ghost use Rattle.std.specs.Cmp.Lexicographic.{slice_cmp};
ghost use Rattle.std.specs.List.Sorted.{IsPermutation, IsSortedByKey};
ghost use Rattle.fixed_point.specs.Found.{Adds};

use crate::MOST_CODE;
use demand_core::{Expand, Row};
use indexmap::IndexSet;
use ir_types::{List, OutOfMemory};
use std::alloc::Global;

/// Adds rows to the found ones: those that aren't there yet go to the end.
pub(crate) fn add_all(found: &mut IndexSet<Row>, rows: &[Row]) -> Result<(), OutOfMemory>
    ensures { OnOk result (Adds found.old.keys rows.now found.new.keys) }
{
    for row in rows {
        found.insert(*row)?;
    }
    Ok(())
}

/// The piece of a row. By the law of expansions what it needs and its size are those of the row.
pub(crate) fn expanded<E: Expand>(alloc: Global, e: &E, row: &Row) -> Result<E::Piece, OutOfMemory>
    ensures piece { IfOk result (λ piece. E.expands e.now row.now piece) }
    ensures needs { IfOk result (λ piece. E.asked e.now piece ≡ E.needs_of e.now row.now) }
    ensures size { IfOk result (λ piece. E.weight e.now piece ≡ E.size_of e.now row.now) }
{
    e.expand(alloc, row)
}

/// The expanded rows with their pieces, until the sizes add to more than the limit, and then none.
#[derive(Drop)]
pub(crate) struct Kept<P> {
    pub(crate) pairs: Vec<(Row, P)>,
    /// What the sizes add to, as far as a `u64` goes.
    pub(crate) size: u64,
}

impl<P: Drop> Kept<P> {
    /// Nothing.
    pub(crate) fn new(alloc: Global) -> Kept<P>
        ensures pairs { result.pairs.items ≡ [] }
        ensures size { result.size ≡ 0 }
    {
        Kept {
            pairs: Vec::new(alloc),
            size: 0,
        }
    }

    /// Counts a row's size, and keeps the row and its piece where the sizes are within the limit.
    pub(crate) fn add(
        &mut self,
        alloc: Global,
        row: Row,
        piece: P,
        size: u64,
    ) -> Result<(), OutOfMemory>
        ensures size { OnOk result (self.new.size ≡ min (self.old.size + size) (2 ^ 64 - 1)) }
        ensures kept { OnOk result (self.new.size ≤ MOST_CODE → self.new.pairs.items ≡ self.old.pairs.items ++ (row, piece) ∷ []) }
        ensures dropped { OnOk result (MOST_CODE < self.new.size → self.new.pairs.items ≡ []) }
    {
        self.size = self.size.saturating_add(size);
        if self.size > MOST_CODE {
            self.pairs = Vec::new(alloc);
            return Ok(());
        }
        self.pairs.push((row, piece))?;
        Ok(())
    }
}

/// The pairs in row order.
pub(crate) fn in_row_order<P: Drop>(mut pairs: Vec<(Row, P)>) -> Result<List<(Row, P)>, OutOfMemory>
    ensures same { IfOk result (λ sorted. IsPermutation pairs.items sorted) }
    ensures order { IfOk result (λ sorted. IsSortedByKey (λ pair. pair.0) (slice_cmp nat_cmp) sorted) }
{
    pairs.sort_by_key(|pair| pair.0)?;
    Ok(List::from_vec(pairs))
}

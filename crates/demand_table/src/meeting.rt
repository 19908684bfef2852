//! Passes meet.
ghost use Rattle.std.specs.Prelude.{◌≡◌, ℕ, List, length, min};
ghost use Rattle.demand_table.specs.Passes.{IsClaimed};
ghost use Rattle.demand_table.specs.Merging.{AreMerged, AreTogether};
ghost use Rattle.table_rule.specs.Tells.{KnowsRow};
ghost use Rattle.table_rule.specs.Views.{both_of};

use crate::pass::Pass;
use crate::table::DemandTable;
use table_rule::{join, recall};

impl Pass {
    /// A pass with what both knew, hold, made and claimed. A ticket has one row for both, and no ticket is claimed by both.
    pub fn meet(self, table: &DemandTable, other: Pass) -> Pass
        requires belongs { (self.table ≡ table.now.id) × (other.table ≡ table.now.id) }
        ensures table { result.table ≡ self.table }
        ensures both { result.seen ≡ both_of self.seen other.seen }
        ensures one_row { (ticket : ℕ) (row other_row : List ℕ) → KnowsRow self.seen ticket row → KnowsRow other.seen ticket other_row → row ≡ other_row }
        ensures claimed_once { (ticket : ℕ) → IsClaimed self.seen ticket → IsClaimed other.seen ticket → ⊥ }
    {
        let Pass {
            mut seat,
            mut found,
            mut open_rows,
            worker,
        } = self;
        let Pass {
            seat: other_seat,
            found: other_found,
            open_rows: other_rows,
            worker: other_worker,
        } = other;
        join(&table.board, &mut seat, other_seat);
        recall(&table.board, &mut seat);
        merge_slots(&mut found, other_found.as_slice());
        merge_rows(&mut open_rows, &other_rows);
        Pass {
            seat,
            found,
            open_rows,
            worker: lesser(worker, other_worker),
        }
    }
}

/// The lesser of two workers.
fn lesser(worker: u64, other: u64) -> u64
    ensures { result ≡ min worker other }
{
    if worker <= other { worker } else { other }
}

/// Takes in the slots of rows that have none yet.
fn merge_slots(found: &mut Vec<u32>, others: &[u32])
    requires same { length found.old.items ≡ length others.now }
    ensures merged { AreMerged (length others.now) found.old.items others.now found.new.items }
{
    for i in 0..others.len() {
        if found[i] != 0 {
            continue;
        }
        found[i] = others[i];
    }
}

/// Takes in the rows that are open with other workers.
fn merge_rows(rows: &mut [Option<u64>; 64], others: &[Option<u64>; 64])
    ensures together { AreTogether 64 rows.old others.now rows.new }
{
    for worker in 0..64 {
        if others[worker].is_none() {
            continue;
        }
        rows[worker] = others[worker];
    }
}

//! A new table with its passes.
ghost use Rattle.std.specs.Prelude.{◌≡◌, ◌<◌, ◌≤◌, ◌+◌, [], ℕ, length, map, IfOk};
ghost use Rattle.demand_table.specs.Passes.{PassView, fresh, fresh_passes};
ghost use Rattle.table_rule.specs.Layout.{total};

use crate::pass::Pass;
use crate::table::DemandTable;
use ir_types::{List, OutOfMemory};
use std::alloc::Global;
use table_rule::{Place, new_board, split};

/// A table without rows for so many workers, and a pass for each of them, from 0 on.
pub fn new_table(alloc: Global, workers: usize) -> Result<(DemandTable, List<Pass>), OutOfMemory>
    requires few { (0 < workers) × (workers ≤ 64) }
    ensures table { IfOk result (λ made. made.0.workers ≡ workers) }
    ensures passes { IfOk result (λ made. made.1 ≡ fresh_passes made.0.id workers 0 workers) }
{
    let (board, mut seat) = new_board(alloc, workers)?;
    let mut passes = Vec::with_capacity(alloc, workers)?;
    for worker in 0..workers - 1 {
        let own = split(&board, &mut seat);
        passes.push(pass_of(alloc, own, workers, worker)?)?;
    }
    passes.push(pass_of(alloc, seat, workers, workers - 1)?)?;
    Ok((DemandTable { board }, List::from_vec(passes)))
}

/// A pass that has done nothing yet.
fn pass_of(alloc: Global, seat: Place, workers: usize, worker: usize) -> Result<Pass, OutOfMemory>
    requires few { (worker < workers) × (workers ≤ 64) }
    requires words { seat.table_id.words ≡ total workers }
    requires fresh { seat.me ≡ (fresh worker (65536 + workers), []) }
    ensures { IfOk result (λ pass. pass ≡ record { table = seat.table_id; seen = fresh worker (65536 + workers) }) }
{
    let found = vec![in alloc; 0; 65536 + workers]?;
    Ok(Pass {
        seat,
        found,
        open_rows: [None; 64],
        worker: worker as u64,
    })
}

//! A new table.
ghost use Rattle.std.specs.Prelude.{◌≡◌, ◌≤◌, ◌<◌, [], IfOk};
ghost use Rattle.table_rule.specs.Layout.{total};
ghost use Rattle.table_rule.specs.Tells.{Fits};
ghost use Rattle.table_rule.specs.Views.{all_of};

use crate::law::{Board, Place};
use atomic_table::Table;
use std::alloc::{AllocError, Global};

/// A table without rows for so many workers, and one seat, which has them all.
pub fn new_board(alloc: Global, workers: usize) -> Result<(Board, Place), AllocError>
    requires few { (0 < workers) × (workers ≤ 64) }
    ensures fits { IfOk result (λ t. Fits t.1.table_id t.0.shared.table_id t.0.shared.key) }
    ensures key { IfOk result (λ t. (t.0.shared.key ≡ workers) × (t.0.shared.table_id.slots ≡ 0)) }
    ensures seat { IfOk result (λ t. t.1.me ≡ (all_of workers, [])) }
{
    let words = vec![in alloc.clone()?; 0; 37 * (65536 + workers) + 131073]?;
    Table::of_words(alloc, words.as_slice(), &(workers as u64))
}

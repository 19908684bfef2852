//! A set behind a lock, on one thread.
use demand_core::Row;
use indexmap::IndexSet;
use ir_types::OutOfMemory;
use std::sync::{Mutex, Wait};

/// The rows, and the places of those that are claimed.
#[derive(Drop)]
struct Kept {
    rows: IndexSet<Row>,
    claimed: IndexSet<usize>,
}

/// Inserts the rows and claims them, each time under the lock.
pub fn round<R: AllocGlobal + Wait>(rt: &R, rows: u64) -> Result<(), OutOfMemory> {
    let kept = Mutex::new(Kept {
        rows: IndexSet::new(rt.alloc()),
        claimed: IndexSet::new(rt.alloc()),
    });
    for word in 0..rows {
        let Some(row) = Row::of(&[word]) else {
            unreachable!()
        };
        let (place, _) = kept.lock(rt).rows.insert_full(row)?;
        kept.lock(rt).claimed.insert(place)?;
    }
    Ok(())
}

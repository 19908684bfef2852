//! A shared table, with a thread for each worker.
ghost use Rattle.std.specs.Prelude.{◌≡◌, ◌<◌, ◌≤◌, All, IfOk};

use demand_core::Row;
use demand_table::{DemandTable, Inserted, Pass, new_table};
use ir_types::{List, OutOfMemory};
use std::alloc::Global;
use std::thread;
use std::thread::Threads;

/// All workers insert half of the rows, and each inserts its part of the others; each row is claimed once it is there.
pub fn round<R: AllocGlobal + Threads + Sync>(
    rt: &R,
    workers: usize,
    rows: u64,
) -> Result<(), OutOfMemory>
    requires few { (0 < workers) × (workers ≤ 64) }
{
    let (table, given) = new_table(rt.alloc(), workers)?;
    let mut passes = passes_of(rt.alloc(), &table, given)?;
    thread::for_each_mut(
        rt,
        passes.as_mut_slice(),
        workers,
        &|worker, pass| { work(&table, pass, worker as u64, workers as u64, rows) },
    );
    Ok(())
}

fn passes_of(
    alloc: Global,
    table: &DemandTable,
    mut given: List<Pass>,
) -> Result<Vec<Pass>, OutOfMemory>
    requires belongs { All (λ pass. pass.table ≡ table.now.id) given }
    ensures { IfOk result (λ passes. All (λ pass. pass.table ≡ table.now.id) passes.items) }
{
    let mut passes = Vec::new(alloc);
    for _ in 0..given.len() {
        let Some(pass) = given.pop() else {
            break;
        };
        passes.push(pass)?;
    }
    Ok(passes)
}

fn work(table: &DemandTable, pass: &mut Pass, worker: u64, workers: u64, rows: u64)
    requires belongs { pass.old.table ≡ table.now.id }
    requires some { 0 < workers }
    ensures table { pass.new.table ≡ pass.old.table }
{
    let half = rows / 2;
    for word in 0..half {
        take(table, pass, word);
    }
    for word in half..rows {
        if word % workers != worker {
            continue;
        }
        take(table, pass, word);
    }
}

fn take(table: &DemandTable, pass: &mut Pass, word: u64)
    requires belongs { pass.old.table ≡ table.now.id }
    ensures table { pass.new.table ≡ pass.old.table }
{
    let Some(row) = Row::of(&[word]) else {
        unreachable!()
    };
    let ticket = match pass.insert(table, &row, None) {
        Inserted::New(ticket) => ticket,
        Inserted::There(ticket) => ticket,
        Inserted::Full => return,
    };
    pass.claim(table, ticket);
}

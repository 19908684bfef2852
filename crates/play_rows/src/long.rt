//! Lists of many events.
use crate::graph::{Graph, child, claim, root, row_of};
use crate::text::count_text;
use demand_play::TableEvent;
use ir_types::{List, OutOfMemory};
use std::alloc::Global;

// How many rows the lists below insert.
const MANY: usize = 20_000;

/// A chain, and a parent with many children: neither takes a look at each row for each event.
pub fn lines(alloc: Global) -> Result<Vec<String>, OutOfMemory> {
    let mut lines = Vec::new(alloc);
    let answer = chain(alloc)?;
    lines.push(format!(in alloc; "a chain: {answer}")?)?;
    let answer = star(alloc)?;
    lines.push(format!(in alloc; "a parent of many: {answer}")?)?;
    Ok(lines)
}

/// Each row needs the next one, and is claimed before that is inserted.
fn chain(alloc: Global) -> Result<String, OutOfMemory> {
    let mut nodes = Vec::new(alloc);
    let mut events = Vec::new(alloc);
    events.push(root(0, 0))?;
    for at in 0..MANY {
        let mut needs = List::new(alloc);
        needs.push(row_of(at as u64 + 1))?;
        nodes.push(needs)?;
        events.push(claim(0, at))?;
        events.push(child(0, at as u64 + 1, at))?;
    }
    count_text(alloc, &Graph { nodes }, &[row_of(0)], events.as_slice())
}

/// The first row needs all others.
fn star(alloc: Global) -> Result<String, OutOfMemory> {
    let mut needs = List::new(alloc);
    let mut events = Vec::new(alloc);
    events.push(root(0, 0))?;
    events.push(claim(0, 0))?;
    for at in 0..MANY {
        needs.push(row_of(at as u64 + 1))?;
        events.push(child(0, at as u64 + 1, 0))?;
    }
    let mut nodes = Vec::new(alloc);
    nodes.push(needs)?;
    count_text(alloc, &Graph { nodes }, &[row_of(0)], events.as_slice())
}

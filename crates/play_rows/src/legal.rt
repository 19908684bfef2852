//! Legal lists of events, and the cores that they make.
use crate::graph::{child, claim, graph_of, root, rows_of};
use crate::text::answer_text;
use demand_core::Row;
use demand_play::TableEvent;
use ir_types::OutOfMemory;
use std::alloc::Global;

/// The cores of legal lists.
pub fn lines(alloc: Global) -> Result<Vec<String>, OutOfMemory> {
    let mut lines = Vec::new(alloc);
    lines.push(two_workers(alloc)?)?;
    add_small(alloc, &mut lines)?;
    Ok(lines)
}

/// A worker inserts a row of two words, and another claims it.
fn two_workers(alloc: Global) -> Result<String, OutOfMemory> {
    let graph = graph_of(alloc, &[])?;
    let Some(row) = Row::of(&[2, 0]) else {
        unreachable!()
    };
    let insert = TableEvent::Insert {
        worker: 0,
        row,
        parent: None,
    };
    let answer = answer_text(alloc, &graph, &[row], &[insert, claim(1, 0)])?;
    Ok(format!(in alloc; "one inserts and another claims: {answer}")?)
}

fn add_small(alloc: Global, lines: &mut Vec<String>) -> Result<(), OutOfMemory> {
    // Node 0 needs 1 and 2, node 1 needs 2, node 3 needs itself.
    let graph = graph_of(alloc, &[&[1, 2], &[2], &[], &[3]])?;
    let table: [(&str, &[u64], &[TableEvent]); 7] = [
        ("no events", &[0], &[]),
        ("a root", &[0], &[root(5, 0)]),
        (
            "two roots of two workers",
            &[0, 2],
            &[root(1, 2), root(0, 0)],
        ),
        (
            "a worker's children",
            &[0],
            &[
                root(0, 0),
                claim(1, 0),
                child(1, 1, 0),
                child(1, 2, 0),
                claim(0, 1),
            ],
        ),
        (
            "a root that is inserted as a child",
            &[0, 1],
            &[root(0, 0), claim(0, 0), child(0, 1, 0)],
        ),
        (
            "a child of the second of two parents",
            &[0],
            &[
                root(0, 0),
                claim(0, 0),
                child(0, 1, 0),
                claim(3, 1),
                child(3, 2, 1),
                claim(3, 2),
            ],
        ),
        ("a row that needs itself", &[3], &[root(0, 3), claim(2, 0)]),
    ];
    for (name, roots, events) in table {
        let roots = rows_of(alloc, roots)?;
        let answer = answer_text(alloc, &graph, roots.as_slice(), events)?;
        lines.push(format!(in alloc; "{name}: {answer}")?)?;
    }
    Ok(())
}

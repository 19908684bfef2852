//! Lists of events with one that isn't legal, each for one cause.
use crate::graph::{Graph, child, claim, graph_of, root, rows_of};
use crate::text::answer_text;
use demand_play::TableEvent;
use ir_types::OutOfMemory;
use std::alloc::Global;

/// The first illegal events.
pub fn lines(alloc: Global) -> Result<Vec<String>, OutOfMemory> {
    // Node 0 needs 1 and 2, node 1 needs 2, node 3 needs itself.
    let graph = graph_of(alloc, &[&[1, 2], &[2], &[], &[3]])?;
    let mut lines = Vec::new(alloc);
    add_inserts(alloc, &graph, &mut lines)?;
    add_children(alloc, &graph, &mut lines)?;
    add_claims(alloc, &graph, &mut lines)?;
    Ok(lines)
}

fn add_inserts(alloc: Global, graph: &Graph, lines: &mut Vec<String>) -> Result<(), OutOfMemory> {
    let table: [(&str, &[u64], &[TableEvent]); 4] = [
        ("no root and no parent", &[0], &[root(0, 1)]),
        (
            "needed, but without parent",
            &[0],
            &[root(0, 0), claim(0, 0), root(0, 1)],
        ),
        ("a root twice", &[0], &[root(0, 0), root(1, 0)]),
        (
            "the second of two that aren't legal",
            &[0],
            &[root(0, 0), claim(0, 0), claim(0, 7), root(0, 1)],
        ),
    ];
    add_all(alloc, graph, &table, lines)
}

fn add_children(alloc: Global, graph: &Graph, lines: &mut Vec<String>) -> Result<(), OutOfMemory> {
    let table: [(&str, &[u64], &[TableEvent]); 7] = [
        (
            "a child twice",
            &[0],
            &[root(0, 0), claim(0, 0), child(0, 1, 0), child(0, 1, 0)],
        ),
        (
            "a child of two parents",
            &[0],
            &[
                root(0, 0),
                claim(0, 0),
                child(0, 1, 0),
                child(0, 2, 0),
                claim(0, 1),
                child(0, 2, 1),
            ],
        ),
        (
            "a parent that is unclaimed",
            &[0],
            &[root(0, 0), child(0, 1, 0)],
        ),
        (
            "a parent that another worker claimed",
            &[0],
            &[root(0, 0), claim(1, 0), child(0, 1, 0)],
        ),
        (
            "a parent that doesn't need the row",
            &[0],
            &[root(0, 0), claim(0, 0), child(0, 3, 0)],
        ),
        (
            "a parent that isn't there",
            &[0],
            &[root(0, 0), claim(0, 0), child(0, 1, 1)],
        ),
        (
            "a row that is its own parent",
            &[3],
            &[root(0, 3), claim(0, 0), child(0, 3, 0)],
        ),
    ];
    add_all(alloc, graph, &table, lines)
}

fn add_claims(alloc: Global, graph: &Graph, lines: &mut Vec<String>) -> Result<(), OutOfMemory> {
    let table: [(&str, &[u64], &[TableEvent]); 5] = [
        ("a claim at first", &[0], &[claim(0, 0), root(0, 0)]),
        (
            "a ticket that isn't there",
            &[0],
            &[root(0, 0), claim(0, 1)],
        ),
        (
            "a ticket twice",
            &[0],
            &[root(0, 0), claim(0, 0), claim(0, 0)],
        ),
        (
            "a ticket for two workers",
            &[0],
            &[root(0, 0), claim(0, 0), claim(1, 0)],
        ),
        (
            "a ticket past all numbers of rows",
            &[0],
            &[root(0, 0), claim(0, usize::MAX)],
        ),
    ];
    add_all(alloc, graph, &table, lines)
}

fn add_all(
    alloc: Global,
    graph: &Graph,
    table: &[(&str, &[u64], &[TableEvent])],
    lines: &mut Vec<String>,
) -> Result<(), OutOfMemory> {
    for (name, roots, events) in table {
        let roots = rows_of(alloc, roots)?;
        let answer = answer_text(alloc, graph, roots.as_slice(), events)?;
        lines.push(format!(in alloc; "{name}: {answer}")?)?;
    }
    Ok(())
}

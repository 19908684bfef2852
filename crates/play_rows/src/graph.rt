//! Graphs that expand rows, and events on them.
ghost use Rattle.std.specs.Option.{option_copied};
ghost use Rattle.std.specs.Prelude.{◌≡◌, [], ◌∷◌, refl, slice_get, slice_index, unwrap_or};

use demand_core::{Expand, Row};
use demand_play::TableEvent;
use ir_types::{List, OutOfMemory};
use std::alloc::Global;

/// By node: the rows that it needs. A row is of the node that its first word numbers; past the nodes nothing is needed.
#[derive(Drop)]
pub struct Graph {
    pub nodes: Vec<List<Row>>,
}

impl Graph {
    fn node(&self, row: &Row) -> Option<&List<Row>>
        ensures { option_copied result ≡ slice_get self.now.nodes.items (slice_index row.now 0) }
    {
        self.nodes.get(first_word(row))
    }
}

/// The first word of a row, 0 where it has none.
fn first_word(row: &Row) -> usize
    ensures { result ≡ slice_index row.now 0 }
{
    match row.words() {
        [] => 0,
        [first, ..] => *first as usize,
    }
}

impl Expand for Graph {
    type Piece = List<Row>;

    ghost expands = { λ graph row piece. piece ≡ unwrap_or (slice_get graph.nodes.items (slice_index row 0)) [] };

    ghost asked = { λ graph piece. piece };

    ghost weight = { λ graph piece. 0 };

    ghost needs_of = { λ graph row. unwrap_or (slice_get graph.nodes.items (slice_index row 0)) [] };

    ghost size_of = { λ graph row. 0 };

    fn expand(&self, alloc: Global, row: &Row) -> Result<List<Row>, OutOfMemory> {
        match self.node(row) {
            Some(needs) => Ok(List::from_slice(alloc, needs.as_slice())?),
            None => Ok(List::new(alloc)),
        }
    }

    fn needs<'a>(&self, piece: &'a List<Row>) -> &'a [Row] {
        piece.as_slice()
    }

    fn size(&self, piece: &List<Row>) -> u64 {
        0
    }

    ghost needs_law = { λ graph row piece h. h };

    ghost size_law = { λ graph row piece h. refl };
}

/// The row of one word.
pub fn row_of(word: u64) -> Row
    ensures { result ≡ word ∷ [] }
{
    match Row::of(&[word]) {
        Some(row) => row,
        None => unreachable!(),
    }
}

/// The rows of one word each.
pub fn rows_of(alloc: Global, words: &[u64]) -> Result<List<Row>, OutOfMemory> {
    let mut rows = List::new(alloc);
    for word in words {
        rows.push(row_of(*word))?;
    }
    Ok(rows)
}

/// A graph by what each node needs.
pub fn graph_of(alloc: Global, table: &[&[u64]]) -> Result<Graph, OutOfMemory> {
    let mut nodes = Vec::new(alloc);
    for needs in table {
        nodes.push(rows_of(alloc, needs)?)?;
    }
    Ok(Graph { nodes })
}

/// A worker inserts the row of one word as a root.
pub fn root(worker: usize, word: u64) -> TableEvent {
    TableEvent::Insert {
        worker,
        row: row_of(word),
        parent: None,
    }
}

/// A worker inserts the row of one word, which the parent needs.
pub fn child(worker: usize, word: u64, parent: usize) -> TableEvent {
    TableEvent::Insert {
        worker,
        row: row_of(word),
        parent: Some(parent),
    }
}

/// A worker claims a ticket.
pub fn claim(worker: usize, ticket: usize) -> TableEvent {
    TableEvent::Claim { worker, ticket }
}

//! Graphs that expand rows, by tables of nodes.
ghost use Rattle.std.specs.Option.{option_copied};
ghost use Rattle.std.specs.Prelude.{◌≡◌, [], ◌∷◌, IfOk, length, option_map, slice_get, slice_index, unwrap_or};

use crate::text::words_text;
use demand_core::{Expand, Row};
use ir_types::{List, OutOfMemory};
use std::alloc::Global;

/// A node of a graph: the rows that it needs, and its size.
#[derive(Drop)]
pub struct Node {
    pub needs: List<Row>,
    pub size: u64,
}

/// The row of one word k is node k; other rows are as the row of their first word. Past the nodes nothing is needed.
#[derive(Drop)]
pub struct Graph {
    pub nodes: Vec<Node>,
}

impl Graph {
    fn node(&self, row: &Row) -> Option<&Node>
        ensures { option_copied result ≡ slice_get self.now.nodes.items (slice_index row.now 0) }
    {
        self.nodes.get(first_word(row))
    }
}

/// The first word of a row, 0 where it has none.
pub fn first_word(row: &Row) -> usize
    ensures { result ≡ slice_index row.now 0 }
{
    match row.words() {
        [] => 0,
        [first, ..] => *first as usize,
    }
}

impl Expand for Graph {
    type Piece = Node;

    ghost expands = { λ graph row piece. (piece.needs ≡ unwrap_or (option_map (λ node. node.needs) (slice_get graph.nodes.items (slice_index row 0))) [])
        × (piece.size ≡ unwrap_or (option_map (λ node. node.size) (slice_get graph.nodes.items (slice_index row 0))) 0) };

    ghost asked = { λ graph piece. piece.needs };

    ghost weight = { λ graph piece. piece.size };

    ghost needs_of = { λ graph row. unwrap_or (option_map (λ node. node.needs) (slice_get graph.nodes.items (slice_index row 0))) [] };

    ghost size_of = { λ graph row. unwrap_or (option_map (λ node. node.size) (slice_get graph.nodes.items (slice_index row 0))) 0 };

    fn expand(&self, alloc: Global, row: &Row) -> Result<Node, OutOfMemory> {
        match self.node(row) {
            Some(node) => Ok(Node {
                needs: List::from_slice(alloc, node.needs.as_slice())?,
                size: node.size,
            }),
            None => Ok(Node {
                needs: List::new(alloc),
                size: 0,
            }),
        }
    }

    fn needs<'a>(&self, piece: &'a Node) -> &'a [Row] {
        piece.needs.as_slice()
    }

    fn size(&self, piece: &Node) -> u64 {
        piece.size
    }

    ghost needs_law = { λ graph row piece h. h.0 };

    ghost size_law = { λ graph row piece h. h.1 };
}

/// The row of one word.
pub fn row_of(word: u64) -> Row
    ensures { result ≡ word ∷ [] }
{
    match Row::of(&[word]) {
        Some(row) => row,
        None => unreachable!(),
    }
}

/// The rows of one word each.
pub fn rows_of(alloc: Global, words: &[u64]) -> Result<List<Row>, OutOfMemory> {
    let mut rows = List::new(alloc);
    for word in words {
        rows.push(row_of(*word))?;
    }
    Ok(rows)
}

/// How many rows a row needs, and its size: by the law these are functions of the row.
fn measure<E: Expand>(alloc: Global, e: &E, row: &Row) -> Result<(usize, u64), OutOfMemory>
    ensures needs { IfOk result (λ answer. answer.0 ≡ length (E.needs_of e.now row.now)) }
    ensures size { IfOk result (λ answer. answer.1 ≡ E.size_of e.now row.now) }
{
    let piece = e.expand(alloc, row)?;
    let needs = e.needs(&piece).len();
    let size = e.size(&piece);
    Ok((needs, size))
}

/// The pieces of two rows of a graph of one node, which needs five rows and has the size 3.
pub fn lines(alloc: Global) -> Result<Vec<String>, OutOfMemory> {
    let mut nodes = Vec::new(alloc);
    nodes.push(Node {
        needs: rows_of(alloc, &[0, 1, 2, 3, 4])?,
        size: 3,
    })?;
    let graph = Graph { nodes };
    let mut lines = Vec::new(alloc);
    let table: [&[u64]; 2] = [&[], &[1]];
    for words in table {
        lines.push(piece_line(alloc, &graph, words)?)?;
    }
    Ok(lines)
}

fn piece_line(alloc: Global, graph: &Graph, words: &[u64]) -> Result<String, OutOfMemory> {
    let name = words_text(alloc, words)?;
    match Row::of(words) {
        Some(row) => {
            let (needs, size) = measure(alloc, graph, &row)?;
            Ok(format!(in alloc; "piece of {name}: needs={needs} size={size}")?)
        }
        None => Ok(format!(in alloc; "piece of {name}: no row")?),
    }
}

//! The least sets of small graphs and of chains.
use crate::graph::{Graph, Node, first_word, rows_of};
use crate::text::words_text;
use fixed_point::{FixFault, least};
use ir_types::{List, OutOfMemory};
use std::alloc::Global;

/// The least sets of small graphs, and of graphs at the limits.
pub fn lines(alloc: Global) -> Result<Vec<String>, OutOfMemory> {
    let mut lines = Vec::new(alloc);
    add_small(alloc, &mut lines)?;
    add_weights(alloc, &mut lines)?;
    add_chains(alloc, &mut lines)?;
    Ok(lines)
}

fn add_small(alloc: Global, lines: &mut Vec<String>) -> Result<(), OutOfMemory> {
    let diamond = graph_of(
        alloc,
        &[(&[], 1), (&[0], 2), (&[0], 3), (&[2, 1], 4), (&[3], 5)],
    )?;
    let cycle = graph_of(alloc, &[(&[1], 1), (&[2], 1), (&[0], 1), (&[3], 1)])?;
    let table: [(&str, &Graph, &[u64]); 5] = [
        ("diamond from its top", &diamond, &[3]),
        ("diamond from one root twice", &diamond, &[2, 2]),
        ("diamond from no root", &diamond, &[]),
        ("cycle", &cycle, &[1]),
        ("node that needs itself", &cycle, &[3]),
    ];
    for (name, graph, roots) in table {
        let answer = listed(alloc, needed(alloc, graph, roots))?;
        lines.push(format!(in alloc; "{name}: {answer}")?)?;
    }
    Ok(())
}

fn add_weights(alloc: Global, lines: &mut Vec<String>) -> Result<(), OutOfMemory> {
    let table: [(&str, &[(&[u64], u64)]); 3] = [
        ("sizes at the limit", &[(&[1], 8_388_607), (&[], 1)]),
        ("sizes past the limit", &[(&[1], 8_388_607), (&[], 2)]),
        ("greatest sizes", &[(&[1], u64::MAX), (&[], u64::MAX)]),
    ];
    for (name, nodes) in table {
        let graph = graph_of(alloc, nodes)?;
        let answer = counted(alloc, needed(alloc, &graph, &[0]))?;
        lines.push(format!(in alloc; "{name}: {answer}")?)?;
    }
    Ok(())
}

fn add_chains(alloc: Global, lines: &mut Vec<String>) -> Result<(), OutOfMemory> {
    let table: [(&str, u64, u64); 4] = [
        ("chain of the most rows and the greatest size", 65_536, 128),
        ("chain of one row more", 65_537, 0),
        ("chain of the most rows that is too heavy", 65_536, 129),
        ("chain of one row more that is too heavy", 65_537, 129),
    ];
    for (name, length, size) in table {
        let graph = chain(alloc, length, size)?;
        let answer = counted(alloc, needed(alloc, &graph, &[length - 1]))?;
        lines.push(format!(in alloc; "{name}: {answer}")?)?;
    }
    Ok(())
}

/// A graph by what each node needs and its size.
fn graph_of(alloc: Global, table: &[(&[u64], u64)]) -> Result<Graph, OutOfMemory> {
    let mut nodes = Vec::new(alloc);
    for (needs, size) in table {
        nodes.push(Node {
            needs: rows_of(alloc, needs)?,
            size: *size,
        })?;
    }
    Ok(Graph { nodes })
}

/// So many nodes, each of which needs the one before it.
fn chain(alloc: Global, length: u64, size: u64) -> Result<Graph, OutOfMemory> {
    let mut nodes = Vec::new(alloc);
    for at in 0..length {
        let needs = if at == 0 {
            List::new(alloc)
        } else {
            rows_of(alloc, &[at - 1])?
        };
        nodes.push(Node { needs, size })?;
    }
    Ok(Graph { nodes })
}

/// The first words of the needed rows.
fn needed(alloc: Global, graph: &Graph, roots: &[u64]) -> Result<Vec<u64>, FixFault> {
    let roots = rows_of(alloc, roots)?;
    let pairs = least(alloc, graph, roots.as_slice(), List::new(alloc))?;
    let mut words = Vec::new(alloc);
    for (row, _) in pairs.as_slice() {
        words.push(first_word(row) as u64)?;
    }
    Ok(words)
}

fn listed(alloc: Global, answer: Result<Vec<u64>, FixFault>) -> Result<String, OutOfMemory> {
    match answer {
        Ok(words) => words_text(alloc, words.as_slice()),
        Err(fault) => refusal(alloc, fault),
    }
}

fn counted(alloc: Global, answer: Result<Vec<u64>, FixFault>) -> Result<String, OutOfMemory> {
    match answer {
        Ok(words) => Ok(format!(in alloc; "{} rows", words.len())?),
        Err(fault) => refusal(alloc, fault),
    }
}

/// The name of a refusal.
pub fn refusal(alloc: Global, fault: FixFault) -> Result<String, OutOfMemory> {
    match fault {
        FixFault::TooManyDemands => Ok(String::from_str(alloc, "too many demands")?),
        FixFault::TooMuchCode => Ok(String::from_str(alloc, "too much code")?),
        FixFault::OutOfMemory => Err(OutOfMemory),
    }
}

//! Cores and refusals as text.
use crate::graph::Graph;
use demand_core::Row;
use demand_play::{Core, CoreFault, TableEvent, play};
use ir_types::OutOfMemory;
use std::alloc::Global;

/// The core that the events make, or the place of the first that isn't legal.
pub fn answer_text(
    alloc: Global,
    graph: &Graph,
    roots: &[Row],
    events: &[TableEvent],
) -> Result<String, OutOfMemory> {
    match play(alloc, graph, roots, events) {
        Ok(core) => core_text(alloc, &core),
        Err(CoreFault::Illegal { at }) => Ok(format!(in alloc; "illegal at {at}")?),
        Err(CoreFault::OutOfMemory) => Err(OutOfMemory),
    }
}

/// How many rows the core has, or the place of the first event that isn't legal.
pub fn count_text(
    alloc: Global,
    graph: &Graph,
    roots: &[Row],
    events: &[TableEvent],
) -> Result<String, OutOfMemory> {
    match play(alloc, graph, roots, events) {
        Ok(core) => Ok(format!(in alloc; "{} rows", core.rows.len())?),
        Err(CoreFault::Illegal { at }) => Ok(format!(in alloc; "illegal at {at}")?),
        Err(CoreFault::OutOfMemory) => Err(OutOfMemory),
    }
}

fn core_text(alloc: Global, core: &Core) -> Result<String, OutOfMemory> {
    let mut rows = String::new(alloc);
    for row in core.rows.as_slice() {
        rows.push_str(" ")?;
        rows.push_str(words_text(alloc, row.words())?.as_str())?;
    }
    let makers = numbers_text(alloc, core.makers.as_slice())?;
    let parents = options_text(alloc, core.parents.as_slice())?;
    let claims = options_text(alloc, core.claims.as_slice())?;
    Ok(format!(in alloc; "rows{rows}, makers{makers}, parents{parents}, claims{claims}")?)
}

fn words_text(alloc: Global, words: &[u64]) -> Result<String, OutOfMemory> {
    let mut text = String::from_str(alloc, "[")?;
    for (k, word) in words.iter().enumerate() {
        if k > 0 {
            text.push_str(" ")?;
        }
        text.push_str(format!(in alloc; "{word}")?.as_str())?;
    }
    text.push_str("]")?;
    Ok(text)
}

fn numbers_text(alloc: Global, numbers: &[usize]) -> Result<String, OutOfMemory> {
    let mut text = String::new(alloc);
    for number in numbers {
        text.push_str(format!(in alloc; " {number}")?.as_str())?;
    }
    Ok(text)
}

fn options_text(alloc: Global, options: &[Option<usize>]) -> Result<String, OutOfMemory> {
    let mut text = String::new(alloc);
    for option in options {
        match option {
            Some(number) => text.push_str(format!(in alloc; " {number}")?.as_str())?,
            None => text.push_str(" -")?,
        }
    }
    Ok(text)
}

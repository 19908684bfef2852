//! Rows by their words.
use crate::text::words_text;
use demand_core::Row;
use ir_types::OutOfMemory;
use std::alloc::Global;

/// The rows that are made, and their order.
pub fn lines(alloc: Global) -> Result<Vec<String>, OutOfMemory> {
    let most = [7; 34];
    let past = [7; 35];
    let rising: [&[u64]; 5] = [&[], &[1], &[1, 0], &[2], &most];
    let mut lines = Vec::new(alloc);
    lines.push(made(alloc, &most)?)?;
    lines.push(made(alloc, &past)?)?;
    for pair in rising.as_slice().windows(2) {
        lines.push(compared(alloc, pair[0], pair[1])?)?;
    }
    Ok(lines)
}

fn made(alloc: Global, words: &[u64]) -> Result<String, OutOfMemory> {
    let answer = match Row::of(words) {
        Some(row) => words_text(alloc, row.words())?,
        None => String::from_str(alloc, "none")?,
    };
    Ok(format!(in alloc; "row of {} words: {answer}", words.len())?)
}

fn compared(alloc: Global, first: &[u64], second: &[u64]) -> Result<String, OutOfMemory> {
    let one = words_text(alloc, first)?;
    let other = words_text(alloc, second)?;
    match (Row::of(first), Row::of(second)) {
        (Some(row), Some(above)) => {
            let order = row.cmp(&above);
            let differ = row != above;
            Ok(format!(in alloc; "rows {one} and {other}: {order:?} differ={differ}")?)
        }
        _ => Ok(format!(in alloc; "rows {one} and {other}: none")?),
    }
}

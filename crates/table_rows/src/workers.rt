//! Rows under parents, and long rows.
use crate::pairs::{Pair, finish, insert, insert_child, new_pair};
use crate::text::inserted_text;
use demand_table::{Claimed, Inserted};
use ir_types::OutOfMemory;
use std::alloc::Global;

/// A worker inserts rows under a row that it claimed, and the other worker inserts one of them too.
pub fn children(alloc: Global) -> Result<String, OutOfMemory> {
    let Pair {
        table,
        mut first,
        mut second,
    } = new_pair(alloc)?;
    let Inserted::New(root) = insert(&table, &mut first, &[7]) else {
        return Ok(String::from_str(alloc, "children: not new")?);
    };
    let Claimed::Mine = first.claim(&table, root) else {
        return Ok(String::from_str(alloc, "children: not mine")?);
    };
    let again = insert(&table, &mut second, &[8]);
    let known = insert_child(&table, &mut first, &[8], root);
    let child = insert_child(&table, &mut first, &[9], root);
    let last = insert(&table, &mut second, &[7]);
    let again = inserted_text(alloc, again)?;
    let known = inserted_text(alloc, known)?;
    let child = inserted_text(alloc, child)?;
    let last = inserted_text(alloc, last)?;
    let entries = finish(alloc, table, first, second)?;
    Ok(format!(in alloc; "children: {again}, {known}, {child}, {last}:{entries}")?)
}

/// A row without words, rows that begin another, and a row of 34 words.
pub fn long_rows(alloc: Global) -> Result<String, OutOfMemory> {
    let Pair {
        table,
        mut first,
        mut second,
    } = new_pair(alloc)?;
    let mut words = [5; 34];
    words[33] = 6;
    let empty = insert(&table, &mut first, &[]);
    let short = insert(&table, &mut first, &[0]);
    let other = insert(&table, &mut second, &[0, 0]);
    let long = insert(&table, &mut second, &words);
    let again = insert(&table, &mut first, &words);
    let empty = inserted_text(alloc, empty)?;
    let short = inserted_text(alloc, short)?;
    let other = inserted_text(alloc, other)?;
    let long = inserted_text(alloc, long)?;
    let again = inserted_text(alloc, again)?;
    let entries = finish(alloc, table, first, second)?;
    Ok(format!(in alloc; "long rows: {empty}, {short}, {other}, {long}, {again}:{entries}")?)
}

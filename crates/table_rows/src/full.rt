//! A table that is filled to the last row.
ghost use Rattle.std.specs.Prelude.{◌≡◌};

use crate::pairs::row_of;
use crate::text::inserted_text;
use demand_table::{DemandTable, Inserted, Pass, new_table};
use ir_types::OutOfMemory;
use std::alloc::Global;

/// One worker inserts as many rows as the table has, and one more.
pub fn fills(alloc: Global) -> Result<String, OutOfMemory> {
    let (table, mut passes) = new_table(alloc, 1)?;
    let Some(mut pass) = passes.pop() else {
        unreachable!()
    };
    let new = count_new(&table, &mut pass);
    let last = inserted_text(alloc, pass.insert(&table, &row_of(&[65537]), None))?;
    let there = inserted_text(alloc, pass.insert(&table, &row_of(&[65536]), None))?;
    Ok(format!(in alloc; "a full table: {new} new, {last}, {there}")?)
}

/// How many of the rows `[0]` to `[65536]` are new.
fn count_new(table: &DemandTable, pass: &mut Pass) -> u64
    requires belongs { pass.old.table ≡ table.now.id }
    ensures table { pass.new.table ≡ pass.old.table }
{
    let mut new = 0;
    for word in 0..65537 {
        let Inserted::New(_) = pass.insert(table, &row_of(&[word]), None) else {
            continue;
        };
        new += 1;
    }
    new
}

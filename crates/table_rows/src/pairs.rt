//! Two workers at one table.
ghost use Rattle.std.specs.Prelude.{◌≡◌, ◌≤◌, ◌∷◌, [], length};
ghost use Rattle.demand_table.specs.Passes.{IsClaimed};

use crate::text::{entries_text, inserted_text, words_text};
use demand_core::Row;
use demand_table::{Claimed, DemandTable, Inserted, Pass, Ticket, close, new_table};
use ir_types::OutOfMemory;
use std::alloc::Global;

/// A table for two workers, and their passes.
#[derive(Drop)]
pub struct Pair {
    pub table: DemandTable,
    pub first: Pass,
    pub second: Pass,
    ghost workers: { table.workers ≡ 2 },
    ghost first_fits: { (first.table ≡ table.id) × (first.seen.workers ≡ 0 ∷ []) },
    ghost second_fits: { (second.table ≡ table.id) × (second.seen.workers ≡ 1 ∷ []) },
}

/// A new table for two workers.
pub fn new_pair(alloc: Global) -> Result<Pair, OutOfMemory> {
    let (table, mut passes) = new_table(alloc, 2)?;
    let Some(second) = passes.pop() else {
        unreachable!()
    };
    let Some(first) = passes.pop() else {
        unreachable!()
    };
    Ok(Pair {
        table,
        first,
        second,
    })
}

/// The passes meet, and the table is closed.
pub fn finish(
    alloc: Global,
    table: DemandTable,
    first: Pass,
    second: Pass,
) -> Result<String, OutOfMemory>
    requires two { table.workers ≡ 2 }
    requires first { (first.table ≡ table.id) × (first.seen.workers ≡ 0 ∷ []) }
    requires second { (second.table ≡ table.id) × (second.seen.workers ≡ 1 ∷ []) }
{
    let all = first.meet(&table, second);
    match close(alloc, table, all) {
        Ok(entries) => entries_text(alloc, entries.as_slice()),
        Err(_) => Err(OutOfMemory),
    }
}

/// Inserts the row of these words without parent.
pub fn insert(table: &DemandTable, pass: &mut Pass, words: &[u64]) -> Inserted
    requires belongs { pass.old.table ≡ table.now.id }
    requires few { length words.now ≤ 34 }
    ensures table { pass.new.table ≡ pass.old.table }
    ensures workers { pass.new.seen.workers ≡ pass.old.seen.workers }
{
    pass.insert(table, &row_of(words), None)
}

/// Inserts the row of these words under a parent, which stays claimed.
pub fn insert_child(table: &DemandTable, pass: &mut Pass, words: &[u64], parent: Ticket) -> Inserted
    requires belongs { pass.old.table ≡ table.now.id }
    requires few { length words.now ≤ 34 }
    requires claimed { IsClaimed pass.old.seen parent.place }
    ensures table { pass.new.table ≡ pass.old.table }
    ensures workers { pass.new.seen.workers ≡ pass.old.seen.workers }
    ensures claimed { IsClaimed pass.new.seen parent.place }
{
    pass.insert(table, &row_of(words), Some(parent))
}

/// What a claim answers.
pub fn claim(table: &DemandTable, pass: &mut Pass, ticket: Ticket) -> &'static str
    requires belongs { pass.old.table ≡ table.now.id }
    ensures table { pass.new.table ≡ pass.old.table }
    ensures workers { pass.new.seen.workers ≡ pass.old.seen.workers }
{
    match pass.claim(table, ticket) {
        Claimed::Mine => "mine",
        Claimed::Taken => "taken",
        Claimed::NotThere => "not there",
    }
}

/// The row of these words.
pub fn row_of(words: &[u64]) -> Row
    requires few { length words.now ≤ 34 }
{
    let Some(row) = Row::of(words) else {
        unreachable!()
    };
    row
}

/// Both workers insert a row, and then both claim it.
pub fn worked_row(alloc: Global) -> Result<String, OutOfMemory> {
    let Pair {
        table,
        mut first,
        mut second,
    } = new_pair(alloc)?;
    let new = insert(&table, &mut first, &[2, 0]);
    let there = insert(&table, &mut second, &[2, 0]);
    let ticket = Ticket { place: 0 };
    let mine = claim(&table, &mut second, ticket);
    let taken = claim(&table, &mut first, ticket);
    let not_there = claim(&table, &mut first, Ticket { place: 5 });
    let new = inserted_text(alloc, new)?;
    let there = inserted_text(alloc, there)?;
    let entries = finish(alloc, table, first, second)?;
    Ok(format!(in alloc;
        "two insert and claim a row: {new}, {there}, {mine}, {taken}, {not_there}:{entries}"
    )?)
}

/// A worker is handed the slot of a row that another inserted.
pub fn handed_slot(alloc: Global) -> Result<String, OutOfMemory> {
    let Pair {
        table,
        mut first,
        mut second,
    } = new_pair(alloc)?;
    let Inserted::New(ticket) = insert(&table, &mut first, &[2, 0]) else {
        return Ok(String::from_str(alloc, "a slot is handed on: not new")?);
    };
    let before = read_text(alloc, second.read(&table, ticket))?;
    let Some(slot) = first.slot_of(ticket) else {
        return Ok(String::from_str(alloc, "a slot is handed on: no slot")?);
    };
    let found = match second.look(&table, slot) {
        Some(found) => found == ticket,
        None => false,
    };
    let after = read_text(alloc, second.read(&table, ticket))?;
    Ok(format!(in alloc; "a slot is handed on:{before}, {found},{after}")?)
}

fn read_text(alloc: Global, row: Option<Row>) -> Result<String, OutOfMemory> {
    match row {
        Some(row) => words_text(alloc, row.words()),
        None => Ok(String::from_str(alloc, " none")?),
    }
}

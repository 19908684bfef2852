//! Closing the table.
ghost use Rattle.std.specs.Prelude.{◌≡◌, ◌<◌, ◌≤◌, ◌+◌, ◌%◌, ◌^◌, ℕ, length, IfOk, IfErr, slice_index};
ghost use Rattle.std.specs.Slots.{slots_items, slots_len, IsFull};
ghost use mathlib.Core.Option.{some};
ghost use lib.ListN.{get_elem?};
ghost use Rattle.demand_play.specs.Entries.{AreSound};
ghost use Rattle.demand_table.specs.Closing.{Reports, AreNumbered, IsWritten, AreWritten, IsReadable, IsPlace, IsWorker};
ghost use Rattle.table_rule.specs.Layout.{Has, word_of, content_at};

use crate::pass::Pass;
use crate::table::DemandTable;
use demand_core::Row;
use demand_play::Closed;
use ir_types::{List, OutOfMemory};
use std::alloc::Global;

/// There was no memory. The table and the pass come back as they were.
#[derive(Drop)]
pub struct CloseRefused {
    pub table: DemandTable,
    pub pass: Pass,
}

/// Closes a table with a pass that has met all others. The entries are those of the published rows, in order of their
/// tickets: exactly the rows that the passes made and claimed, each once. A parent is the place of its entry.
///
/// It is refused for want of memory alone.
pub fn close(alloc: Global, table: DemandTable, pass: Pass) -> Result<List<Closed>, CloseRefused>
    requires belongs { pass.table ≡ table.id }
    requires met { (k : ℕ) → k < table.workers → Has pass.seen.workers k }
    ensures sound { IfOk result (λ entries. AreSound entries) }
    ensures reports { IfOk result (λ entries. Reports pass.seen entries) }
    ensures refused { IfErr result (λ back. (back.table ≡ table) × (back.pass ≡ pass)) }
{
    let Pass {
        seat,
        found,
        open_rows,
        worker,
    } = pass;
    let Ok(mut room) = room_for(alloc, found.as_slice()) else {
        return Err(CloseRefused {
            table,
            pass: Pass {
                seat,
                found,
                open_rows,
                worker,
            },
        });
    };
    let DemandTable { board } = table;
    let words = board.close_with(seat);
    write_entries(
        &words,
        room.tickets.as_slice(),
        room.places.as_slice(),
        &mut room.entries,
    );
    words.free();
    Ok(List::from_vec(room.entries))
}

/// The tickets of the published rows, for each row its place among them, counted from 1, and an entry for each ticket.
#[derive(Drop)]
struct Room {
    tickets: Vec<usize>,
    places: Vec<usize>,
    entries: Vec<Closed>,
}

/// All the memory that closing takes.
fn room_for(alloc: Global, found: &[u32]) -> Result<Room, OutOfMemory>
    ensures { IfOk result (λ room. AreNumbered found.now room.tickets.items room.places.items × (length room.entries.items ≡ length room.tickets.items)) }
{
    let (tickets, places) = number(alloc, found)?;
    let Some(row) = Row::of(&[]) else {
        unreachable!()
    };
    let blank = Closed {
        row,
        maker: 0,
        parent: None,
        claimer: None,
    };
    let entries = vec![in alloc; blank; tickets.len()]?;
    Ok(Room {
        tickets,
        places,
        entries,
    })
}

/// The tickets whose slots are known, and for each row its place among them, counted from 1.
fn number(alloc: Global, found: &[u32]) -> Result<(Vec<usize>, Vec<usize>), OutOfMemory>
    ensures { IfOk result (λ made. AreNumbered found.now made.0.items made.1.items) }
{
    let mut tickets = Vec::new(alloc);
    let mut places = vec![in alloc; 0; found.len()]?;
    for ticket in 0..found.len() {
        if found[ticket] == 0 {
            continue;
        }
        tickets.push(ticket)?;
        places[ticket] = tickets.len();
    }
    Ok((tickets, places))
}

/// Writes the entries of all tickets.
fn write_entries(
    words: &atomic_table::Closed<(), Global>,
    tickets: &[usize],
    places: &[usize],
    entries: &mut Vec<Closed>,
)
    requires full { IsFull words.now.words }
    requires same { length entries.old.items ≡ length tickets.now }
    requires readable { (i x : ℕ) → get_elem? tickets.now i ≡ some x → (x < 65600) × (word_of x 36 < slots_len words.now.words) × IsReadable (slots_items words.now.words) places.now x }
    ensures same { length entries.new.items ≡ length tickets.now }
    ensures written { AreWritten (length tickets.now) (slots_items words.now.words) places.now tickets.now entries.new.items }
{
    for i in 0..tickets.len() {
        entries[i] = entry_of(words, places, tickets[i]);
    }
}

/// The entry of a row.
fn entry_of(words: &atomic_table::Closed<(), Global>, places: &[usize], ticket: usize) -> Closed
    requires full { IsFull words.now.words }
    requires low { (ticket < 65600) × (word_of ticket 36 < slots_len words.now.words) }
    requires readable { IsReadable (slots_items words.now.words) places.now ticket }
    ensures { IsWritten (slots_items words.now.words) places.now ticket result }
{
    let at = 37 * ticket + 131073;
    let origin = words.word(at + 35);
    Closed {
        row: row_at(words, at),
        maker: (origin % 64) as usize,
        parent: place_in(places, (origin / 64) as usize),
        claimer: worker_of(words.word(at + 36)),
    }
}

/// The row whose head stands at a place.
fn row_at(words: &atomic_table::Closed<(), Global>, at: usize) -> Row
    requires full { IsFull words.now.words }
    requires low { (at < 2 ^ 32) × (at + 34 < slots_len words.now.words) }
    requires short { slice_index (slots_items words.now.words) at % 64 ≤ 34 }
    ensures { result ≡ content_at (slots_items words.now.words) at }
{
    let len = (words.word(at) % 64) as usize;
    let mut kept = [0; 34];
    for i in 0..len {
        kept[i] = words.word(at + i + 1);
    }
    let Some(row) = Row::of(&kept[..len]) else {
        unreachable!()
    };
    row
}

/// The place of the parent that an origin word names, if it names one.
fn place_in(places: &[usize], named: usize) -> Option<usize>
    requires near { (y : ℕ) → named ≡ y + 1 → (y < 65600) × (y < length places.now) × (0 < slice_index places.now y) }
    ensures { IsPlace places.now named result }
{
    if named == 0 {
        return None;
    }
    Some(places[named - 1] - 1)
}

/// The worker that a claim word names, if it names one.
fn worker_of(claim: u64) -> Option<usize>
    ensures { IsWorker claim result }
{
    if claim == 0 {
        return None;
    }
    Some((claim - 1) as usize)
}

//! A worker's pass to the table.
ghost use Rattle.std.specs.Prelude.{◌≡◌, ◌≢◌, ◌⊎◌, ◌<◌, ◌≤◌, ◌+◌, ◌*◌, ◌/◌, ◌%◌, ◌∷◌, [], ℕ, List, Option, Some, None, length, IfSome, IfNone, IsTrue, MatchBool, ◌↔◌};
ghost use Rattle.demand_table.specs.Answers.{IfMine, IfTaken, IfNotThere};
ghost use Rattle.demand_table.specs.Passes.{IsClaimed};
ghost use Rattle.table_rule.specs.Layout.{Has, slots, word_of, probe};
ghost use Rattle.table_rule.specs.Tells.{KnowsSlot, Clear, IsReady, HasPublished};
ghost use Rattle.table_rule.specs.Views.{saw_empty, knows, opened, writes, published, takes};

use crate::answers::{Claimed, Ticket};
use crate::table::DemandTable;
use crate::tried::OpenRow;
use std::marker::Model;
use table_rule::{Place, claim, draw, look, publish, read_claim, read_head, read_word, store};

/// A worker's pass. It belongs to its table, and keeps what the worker knows, holds and has done.
#[derive(Drop)]
pub struct Pass {
    pub(crate) seat: Place,
    // for each row the slot that is known to name it, counted from 1, or 0
    pub(crate) found: Vec<u32>,
    // for each worker the row that is open with it
    pub(crate) open_rows: [Option<u64>; 64],
    // the least worker
    pub(crate) worker: u64,
}

impl Model for Pass {
    ghost use Rattle.std.specs.Prelude.{◌≡◌, []};
    ghost use Rattle.demand_table.specs.Passes.{PassView};
    ghost use Rattle.demand_table.specs.Ties.{Ties};

    ghost Value = { PassView };

    ghost view = { λ p. record { table = p.seat.table_id; seen = p.seat.me.0 } };

    ghost invariant = { λ p. (p.seat.me.1 ≡ []) × Ties p.seat.table_id p.seat.me.0 p.found.items p.open_rows p.worker };
}

impl Pass {
    /// The slot that names a ticket: `None` exactly where the pass doesn't know the ticket as published.
    pub fn slot_of(&self, ticket: Ticket) -> Option<usize>
        ensures some { IfSome result (λ slot. (slot < slots) × Has self.now.seen.known (slot + 1, ticket.place + 1)) }
        ensures none { IfNone result (KnowsSlot self.now.seen ticket.place → ⊥) }
    {
        if !self.is_known(ticket.place) {
            return None;
        }
        Some((self.found[ticket.place] - 1) as usize)
    }

    /// Looks at a slot, in one load. The answer is `None` exactly where this load found it empty, and else the ticket that
    /// the slot names, which the pass then knows as published.
    pub fn look(&mut self, table: &DemandTable, slot: usize) -> Option<Ticket>
        requires belongs { self.old.table ≡ table.now.id }
        requires slot { slot < slots }
        ensures table { self.new.table ≡ self.old.table }
        ensures empty { IfNone result (self.new.seen ≡ saw_empty self.old.seen (slot + 1)) }
        ensures named { IfSome result (λ ticket. self.new.seen ≡ knows self.old.seen (slot + 1) (ticket.place + 1)) }
    {
        let place = self.look_at(table, slot)?;
        Some(Ticket { place })
    }

    /// The same, with what a look says of chains.
    pub(crate) fn look_at(&mut self, table: &DemandTable, slot: usize) -> Option<usize>
        requires belongs { self.old.table ≡ table.now.id }
        requires slot { slot < slots }
        ensures table { self.new.table ≡ self.old.table }
        ensures empty { IfNone result (self.new.seen ≡ saw_empty self.old.seen (slot + 1)) }
        ensures named { IfSome result (λ place. self.new.seen ≡ knows self.old.seen (slot + 1) (place + 1)) }
        ensures crowd { (row : List ℕ) (i : ℕ) → i ≤ slots → Clear self.old.seen row i → i ≤ self.old.seen.limit }
        ensures few { self.old.seen.limit ≤ 65600 }
    {
        let found = look(&table.board, &mut self.seat, slot);
        if found == 0 {
            return None;
        }
        let place = (found - 1) as usize;
        self.found[place] = (slot + 1) as u32;
        Some(place)
    }

    /// Draws a number for the least worker, where no row is held.
    pub(crate) fn draw_row(&mut self, table: &DemandTable) -> OpenRow
        requires belongs { self.old.table ≡ table.now.id }
        requires nothing { self.old.seen.held ≡ [] }
        ensures table { self.new.table ≡ self.old.table }
        ensures drawn { self.new.seen ≡ opened self.old.seen result.number }
        ensures worker { result.worker ≡ self.old.seen.lead }
    {
        let number = draw(&table.board, &mut self.seat);
        let worker = self.worker as usize;
        self.open_rows[worker] = Some(number);
        OpenRow { worker, number }
    }

    /// Writes a word of a row that is held.
    pub(crate) fn write(&mut self, table: &DemandTable, row: OpenRow, word: usize, value: u64)
        requires belongs { self.old.table ≡ table.now.id }
        requires row { (row.number < self.old.seen.limit) × ((ws : List ℕ) × Has self.old.seen.held (row.worker, (row.number, ws))) }
        requires word { word < 36 }
        ensures table { self.new.table ≡ self.old.table }
        ensures written { self.new.seen ≡ writes self.old.seen row.number word value }
        ensures long { (ws : List ℕ) → Has self.old.seen.held (row.worker, (row.number, ws)) → length ws ≡ 36 }
    {
        store(&table.board, &mut self.seat, row.number, word, value);
    }

    /// Reads a word of a row that is known as published.
    pub(crate) fn word(&mut self, table: &DemandTable, place: usize, word: usize) -> u64
        requires belongs { self.old.table ≡ table.now.id }
        requires known { KnowsSlot self.old.seen place }
        requires word { word < 36 }
        ensures table { self.new.table ≡ self.old.table }
        ensures read { self.new.seen ≡ knows self.old.seen (word_of place word) result }
    {
        read_word(&table.board, &mut self.seat, place as u64, word)
    }

    /// Reads the head of a row that is known as published.
    pub(crate) fn head(&mut self, table: &DemandTable, place: usize) -> u64
        requires belongs { self.old.table ≡ table.now.id }
        requires known { KnowsSlot self.old.seen place }
        ensures table { self.new.table ≡ self.old.table }
        ensures read { self.new.seen ≡ knows self.old.seen (word_of place 0) result }
        ensures short { result % 64 ≤ 34 }
        ensures low { result / 64 < 65600 }
    {
        read_head(&table.board, &mut self.seat, place as u64)
    }

    /// Reads the claim of a ticket that the pass claimed: the worker.
    pub(crate) fn claimer(&mut self, table: &DemandTable, place: usize) -> u64
        requires belongs { self.old.table ≡ table.now.id }
        requires claimed { IsClaimed self.old.seen place }
        ensures table { self.new.table ≡ self.old.table }
        ensures read { self.new.seen ≡ knows self.old.seen (word_of place 36) (result + 1) }
        ensures worker { Has self.old.seen.claims (place, result) × Has self.old.seen.workers result × (result < 64) }
        ensures known { KnowsSlot self.old.seen place × (place < 65600) }
        ensures few { self.old.seen.limit ≤ 65600 }
    {
        let claim = read_claim(&table.board, &mut self.seat, place as u64);
        claim - 1
    }

    /// Puts a row that is held into a slot of its chain. The answer is `None`, or else the row that the slot names.
    pub(crate) fn publish_at(
        &mut self,
        table: &DemandTable,
        row: OpenRow,
        slot: usize,
    ) -> Option<usize>
        requires belongs { self.old.table ≡ table.now.id }
        requires row { row.number < self.old.seen.limit }
        requires ready { (ws : List ℕ) × (words : List ℕ) × (i : ℕ) × (m : ℕ) × (parent : Option ℕ) × Has self.old.seen.held (row.worker, (row.number, ws))
            × IsReady self.old.seen ws words m parent × (slot + 1 ≡ probe words i) × Clear self.old.seen words i }
        ensures table { self.new.table ≡ self.old.table }
        ensures placed { IfNone result ((m : ℕ) (parent : Option ℕ) (ws words : List ℕ) → Has self.old.seen.held (row.worker, (row.number, ws)) → IsReady self.old.seen ws words m parent
            → self.new.seen ≡ published self.old.seen (slot + 1) row.number m parent) }
        ensures named { IfSome result (λ place. self.new.seen ≡ knows self.old.seen (slot + 1) (place + 1)) }
    {
        let found = publish(&table.board, &mut self.seat, row.number, slot);
        if found == 0 {
            self.open_rows[row.worker] = None;
            self.found[row.number as usize] = (slot + 1) as u32;
            return None;
        }
        let place = (found - 1) as usize;
        self.found[place] = (slot + 1) as u32;
        Some(place)
    }

    /// Claims a ticket for the least worker of the pass. `NotThere` comes exactly where the pass doesn't know the ticket as
    /// published, `Mine` exactly where this call claimed it, and `Taken` where a worker had.
    pub fn claim(&mut self, table: &DemandTable, ticket: Ticket) -> Claimed
        requires belongs { self.old.table ≡ table.now.id }
        ensures table { self.new.table ≡ self.old.table }
        ensures mine { IfMine result (KnowsSlot self.old.seen ticket.place × (self.new.seen ≡ takes self.old.seen ticket.place self.old.seen.lead)) }
        ensures taken { IfTaken result (KnowsSlot self.old.seen ticket.place × ((claim : ℕ) × (claim ≢ 0) × (self.new.seen ≡ knows self.old.seen (word_of ticket.place 36) claim))) }
        ensures not_there { IfNotThere result ((KnowsSlot self.old.seen ticket.place → ⊥) × (self.new.seen ≡ self.old.seen)) }
    {
        if !self.is_known(ticket.place) {
            return Claimed::NotThere;
        }
        let found = claim(
            &table.board,
            &mut self.seat,
            ticket.place as u64,
            self.worker,
        );
        if found == 0 {
            return Claimed::Mine;
        }
        Claimed::Taken
    }

    /// Whether the pass knows a row as published.
    pub(crate) fn is_known(&self, place: usize) -> bool
        ensures { IsTrue result ↔ KnowsSlot self.now.seen place }
    {
        if place >= self.found.len() {
            return false;
        }
        self.found[place] != 0
    }

    /// A row that is held and that the table has, if there is one.
    pub(crate) fn ready_row(&self) -> Option<OpenRow>
        ensures some { IfSome result (λ row. (row.number < self.now.seen.limit) × ((ws : List ℕ) × Has self.now.seen.held (row.worker, (row.number, ws)))) }
        ensures none { IfNone result ((k x : ℕ) (ws : List ℕ) → Has self.now.seen.held (k, (x, ws)) → self.now.seen.limit ≤ x) }
    {
        let rows = self.found.len() as u64;
        for worker in 0..64 {
            let Some(number) = self.open_rows[worker] else {
                continue;
            };
            if number < rows {
                return Some(OpenRow { worker, number });
            }
        }
        None
    }

    /// Whether a number is held.
    pub(crate) fn holds_number(&self) -> bool
        ensures { MatchBool result ((k : ℕ) × (x : ℕ) × (ws : List ℕ) × Has self.now.seen.held (k, (x, ws))) (self.now.seen.held ≡ []) }
    {
        for worker in 0..64 {
            if self.open_rows[worker].is_some() {
                return true;
            }
        }
        false
    }
}

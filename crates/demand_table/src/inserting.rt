//! Inserting rows.
ghost use Rattle.std.specs.Prelude.{◌≡◌, ◌+◌, ◌*◌, ◌<◌, ◌≤◌, ◌∷◌, ℕ, List, Option, Some, length, IfSome, IfNone};
ghost use Rattle.demand_table.specs.Answers.{IfNew, IfThere, IfFull, IfPlaced, IfNamed, IfBeyond, place_of};
ghost use Rattle.demand_table.specs.Passes.{IsClaimed, IsMaker, IsFull};
ghost use Rattle.demand_table.specs.Seeking.{Later, IsBooked, Fills};
ghost use Rattle.table_rule.specs.Layout.{Has, slots, named, probe};
ghost use Rattle.table_rule.specs.Tells.{KnowsSlot, KnowsRow, Clear};

use crate::answers::{Inserted, Ticket};
use crate::home::home_of;
use crate::pass::Pass;
use crate::table::DemandTable;
use crate::tried::{Booking, OpenRow, Tried};
use demand_core::Row;

impl Pass {
    /// Inserts a row, as one that the row of a parent needs, which this pass claimed, or without parent.
    ///
    /// `New` comes exactly where this call published the row. It is booked to the worker that claimed the parent, or else to
    /// the least worker of the pass. `There` comes only where a published row has the same words, as this call read them.
    /// `Full` comes only where the pass holds drawn numbers, and each is past the rows of the table.
    pub fn insert(&mut self, table: &DemandTable, row: &Row, parent: Option<Ticket>) -> Inserted
        requires belongs { self.old.table ≡ table.now.id }
        requires parent { IfSome parent (λ ticket. IsClaimed self.old.seen ticket.place) }
        ensures table { self.new.table ≡ self.old.table }
        ensures later { Later self.old.seen self.new.seen }
        ensures new { IfNew result (λ place. KnowsSlot self.new.seen place × KnowsRow self.new.seen place row.now
            × ((maker : ℕ) × IsMaker self.old.seen (place_of parent) maker × (self.new.seen.made ≡ (place, (maker, place_of parent)) ∷ self.old.seen.made))) }
        ensures there { IfThere result (λ place. KnowsSlot self.new.seen place × KnowsRow self.new.seen place row.now × (self.new.seen.made ≡ self.old.seen.made)) }
        ensures full { IfFull result (IsFull self.new.seen × (self.new.seen.made ≡ self.old.seen.made)) }
    {
        let booking = self.booking(table, parent);
        let words = row.words();
        let home = home_of(words);
        for i in 0..131072 {
            match self.try_slot(table, words, booking, (home + i) % 131072) {
                Tried::Placed(place) => return Inserted::New(Ticket { place }),
                Tried::Beyond => return Inserted::Full,
                Tried::Named(place) => {
                    if self.has_words(table, place, words) {
                        return Inserted::There(Ticket { place });
                    }
                }
            }
        }
        unreachable!()
    }

    /// Who makes a row under a parent or without one, and its generation.
    pub(crate) fn booking(&mut self, table: &DemandTable, parent: Option<Ticket>) -> Booking
        requires belongs { self.old.table ≡ table.now.id }
        requires parent { IfSome parent (λ ticket. IsClaimed self.old.seen ticket.place) }
        ensures table { self.new.table ≡ self.old.table }
        ensures later { Later self.old.seen self.new.seen × (self.new.seen.made ≡ self.old.seen.made) }
        ensures parent { result.parent ≡ parent }
        ensures maker { IsMaker self.old.seen (place_of parent) result.maker }
        ensures booked { IsBooked self.new.seen result.maker result.generation (place_of parent) }
        ensures few { self.old.seen.limit ≤ 65600 }
    {
        let Some(ticket) = parent else {
            return Booking {
                maker: self.worker,
                generation: 0,
                parent,
            };
        };
        let maker = self.claimer(table, ticket.place);
        let generation = self.head(table, ticket.place) / 64 + 1;
        Booking {
            maker,
            generation,
            parent,
        }
    }

    /// Looks at a slot of a row's chain, and where it is empty puts the row there.
    fn try_slot(
        &mut self,
        table: &DemandTable,
        words: &[u64],
        booking: Booking,
        slot: usize,
    ) -> Tried
        requires belongs { self.old.table ≡ table.now.id }
        requires few { length words.now ≤ 34 }
        requires slot { slot < slots }
        requires chain { (i : ℕ) × (slot + 1 ≡ probe words.now i) × Clear self.old.seen words.now i }
        requires booked { IsBooked self.old.seen booking.maker booking.generation (place_of booking.parent) }
        ensures table { self.new.table ≡ self.old.table }
        ensures later { Later self.old.seen self.new.seen }
        ensures crowd { (row : List ℕ) (i : ℕ) → i ≤ slots → Clear self.old.seen row i → i ≤ self.old.seen.limit }
        ensures few { self.old.seen.limit ≤ 65600 }
        ensures placed { IfPlaced result (λ place. KnowsSlot self.new.seen place × KnowsRow self.new.seen place words.now
            × (self.new.seen.made ≡ (place, (booking.maker, place_of booking.parent)) ∷ self.old.seen.made)) }
        ensures named { IfNamed result (λ place. Has self.new.seen.known (slot + 1, place + 1) × (self.new.seen.made ≡ self.old.seen.made)) }
        ensures beyond { IfBeyond result (IsFull self.new.seen × (self.new.seen.made ≡ self.old.seen.made)) }
    {
        if let Some(place) = self.look_at(table, slot) {
            return Tried::Named(place);
        }
        let Some(held) = self.row_at_hand(table) else {
            return Tried::Beyond;
        };
        self.fill(table, held, words, booking);
        match self.publish_at(table, held, slot) {
            None => Tried::Placed(held.number as usize),
            Some(place) => Tried::Named(place),
        }
    }

    /// A row that is held, or else one that is drawn now. `None` comes only where each number that is held is past the rows.
    fn row_at_hand(&mut self, table: &DemandTable) -> Option<OpenRow>
        requires belongs { self.old.table ≡ table.now.id }
        ensures table { self.new.table ≡ self.old.table }
        ensures later { Later self.old.seen self.new.seen × (self.new.seen.made ≡ self.old.seen.made) }
        ensures ready { IfSome result (λ held. (held.number < self.new.seen.limit) × ((ws : List ℕ) × Has self.new.seen.held (held.worker, (held.number, ws)))) }
        ensures full { IfNone result (IsFull self.new.seen) }
    {
        if let Some(held) = self.ready_row() {
            return Some(held);
        }
        if self.holds_number() {
            return None;
        }
        let held = self.draw_row(table);
        if held.number >= self.found.len() as u64 {
            return None;
        }
        Some(held)
    }

    /// Writes a head, an origin and words into a row that is held.
    fn fill(&mut self, table: &DemandTable, held: OpenRow, words: &[u64], booking: Booking)
        requires belongs { self.old.table ≡ table.now.id }
        requires few { length words.now ≤ 34 }
        requires held { (held.number < self.old.seen.limit) × ((ws : List ℕ) × Has self.old.seen.held (held.worker, (held.number, ws))) }
        requires booked { IsBooked self.old.seen booking.maker booking.generation (place_of booking.parent) }
        ensures table { self.new.table ≡ self.old.table }
        ensures fills { Fills (length words.now) self.old.seen self.new.seen held.worker held.number (64 * booking.generation + length words.now)
            (booking.maker + 64 * named (place_of booking.parent)) words.now }
    {
        let head = 64 * booking.generation + words.len() as u64;
        let origin = booking.maker + 64 * named_by(booking.parent);
        self.write(table, held, 0, head);
        self.write(table, held, 35, origin);
        for i in 0..words.len() {
            self.write(table, held, i + 1, words[i]);
        }
    }
}

/// How an origin word names a parent.
fn named_by(parent: Option<Ticket>) -> u64
    requires near { IfSome parent (λ ticket. ticket.place < 65600) }
    ensures { result ≡ named (place_of parent) }
{
    match parent {
        None => 0,
        Some(ticket) => ticket.place as u64 + 1,
    }
}

//! Reading the words of published rows.
ghost use Rattle.std.specs.Prelude.{◌≡◌, ◌<◌, ◌≤◌, ◌%◌, length, IfSome, IfNone, MatchBool};
ghost use Rattle.demand_table.specs.Passes.{HasLearned};
ghost use Rattle.demand_table.specs.Seeking.{AreRead};
ghost use Rattle.table_rule.specs.Tells.{KnowsSlot, KnowsRow, KnowsOther};

use crate::answers::Ticket;
use crate::pass::Pass;
use crate::table::DemandTable;
use demand_core::Row;

impl Pass {
    /// The row of a ticket: `None` exactly where the pass doesn't know the ticket as published.
    pub fn read(&mut self, table: &DemandTable, ticket: Ticket) -> Option<Row>
        requires belongs { self.old.table ≡ table.now.id }
        ensures table { self.new.table ≡ self.old.table }
        ensures learned { HasLearned self.old.seen self.new.seen }
        ensures some { IfSome result (λ row. KnowsSlot self.old.seen ticket.place × KnowsRow self.new.seen ticket.place row) }
        ensures none { IfNone result (KnowsSlot self.old.seen ticket.place → ⊥) }
    {
        if !self.is_known(ticket.place) {
            return None;
        }
        let len = (self.head(table, ticket.place) % 64) as usize;
        let words = self.words_at(table, ticket.place, len);
        Row::of(&words[..len])
    }

    /// So many words of a row that is known as published.
    pub(crate) fn words_at(&mut self, table: &DemandTable, place: usize, len: usize) -> [u64; 34]
        requires belongs { self.old.table ≡ table.now.id }
        requires known { KnowsSlot self.old.seen place }
        requires few { len ≤ 34 }
        ensures table { self.new.table ≡ self.old.table }
        ensures learned { HasLearned self.old.seen self.new.seen }
        ensures read { AreRead len self.new.seen place result }
    {
        let mut words = [0; 34];
        for i in 0..len {
            words[i] = self.word(table, place, i + 1);
        }
        words
    }

    /// Whether a row that is known as published has these words.
    pub(crate) fn has_words(&mut self, table: &DemandTable, place: usize, words: &[u64]) -> bool
        requires belongs { self.old.table ≡ table.now.id }
        requires known { KnowsSlot self.old.seen place }
        requires few { length words.now ≤ 34 }
        ensures table { self.new.table ≡ self.old.table }
        ensures learned { HasLearned self.old.seen self.new.seen }
        ensures told { MatchBool result (KnowsRow self.new.seen place words.now) (KnowsOther self.new.seen place words.now) }
    {
        if self.head(table, place) % 64 != words.len() as u64 {
            return false;
        }
        for i in 0..words.len() {
            if self.word(table, place, i + 1) != words[i] {
                return false;
            }
        }
        true
    }
}

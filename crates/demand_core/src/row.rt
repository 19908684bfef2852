//! Rows: lists of at most 34 words, which are copied without memory.
ghost use Rattle.std.specs.Prelude.{◌≡◌, ◌<◌, ◌≤◌, Some, refl, length, OnOk, SomeIff, bytes_eq};
ghost use Rattle.std.proofs.Common.{rules};
ghost use Rattle.std.specs.Ordering.{nat_cmp};
ghost use Rattle.std.specs.Hash as fed;
ghost use Rattle.std.specs.Cmp.{partial_equiv_from_equiv};
ghost use Rattle.std.specs.Cmp.Lexicographic.{slice_cmp, nat_list_eq_equiv, nat_list_cmp_total, texts_ties, texts_po};
ghost use Rattle.std.specs.Cmp.Rules.{hashing};

use std::cmp::Ordering;
use std::hash::{Hash, Hasher};
use std::marker::Model;

/// A list of at most 34 words of 64 bits, which contracts see as their list. Equality, order and hash are those of the
/// list: the first word that differs decides, and a prefix comes before what it begins.
#[derive(Clone, Copy, Debug)]
pub struct Row {
    words: [u64; 34],
    len: usize,
}

impl Model for Row {
    ghost use Rattle.std.specs.Prelude.{ℕ, List, length, take};
    ghost use Rattle.demand_core.specs.Row.{filled, IsKept, length-kept};

    ghost Value = { List ℕ };

    ghost view = { λ row. take row.len row.words };

    ghost invariant = { λ row. IsKept row.words row.len };

    ghost inverse = { λ words. record { words = filled words; len = length words } };

    ghost inverse_ok = { λ row kept i. record { words = kept.zeros i; len = length-kept row.words row.len kept i } };
}

impl Row {
    /// The row of these words: `None` exactly where there are more than 34.
    pub fn of(words: &[u64]) -> Option<Row>
        ensures { SomeIff result (length words.now ≤ 34) words.now }
    {
        if words.len() > 34 {
            return None;
        }
        let mut kept = [0; 34];
        kept[..words.len()].copy_from_slice(words);
        Some(Row {
            words: kept,
            len: words.len(),
        })
    }

    /// The words of the row, from the first to the last.
    pub fn words(&self) -> &[u64]
        ensures words { result.now ≡ self.now }
        ensures few { length result.now ≤ 34 }
    {
        &self.words[..self.len]
    }
}

impl PartialEq for Row {
    ghost eq = { λ a b. bytes_eq a b };

    ghost laws = { partial_equiv_from_equiv nat_list_eq_equiv };

    fn eq(&self, other: &Row) -> bool {
        self.words() == other.words()
    }
}

impl Eq for Row {
    ghost laws = { nat_list_eq_equiv };
}

impl PartialOrd for Row {
    ghost partial_cmp = { λ a b. Some (slice_cmp nat_cmp a b) };

    ghost laws = { texts_po };

    fn partial_cmp(&self, other: &Row) -> Option<Ordering> {
        Some(self.cmp(other))
    }
}

impl Ord for Row {
    ghost cmp = { λ a b. slice_cmp nat_cmp a b };

    ghost total = { nat_list_cmp_total };

    ghost matches_partial_cmp = { λ a b. refl };

    ghost matches_eq = { λ a b. texts_ties a b };

    fn cmp(&self, other: &Row) -> Ordering {
        self.words().cmp(other.words())
    }
}

impl Hash for Row {
    ghost hash_input = { λ a. fed.slice fed.u64 a };

    ghost respects_eq = { Prim.search (hashing, rules) };

    fn hash<H: Hasher>(&self, state: &mut H) {
        self.words().hash(state);
    }
}

//! The table after the events so far, with its rows found by hash.
ghost use Rattle.std.specs.Prelude.{◌≡◌, ◌<◌, ◌↔◌, ℕ, List, [], ◌∷◌, ◌++◌, Contains, IsTrue, MatchBool, IfOk, OnOk, Some, None, bytes_eq, length, map, slice_get, slice_set};
ghost use Rattle.demand_play.specs.declared.event.TableEvent.{TableEvent};
ghost use Rattle.demand_play.specs.declared.event.TableEvent.TheVariants.{Insert, Claim};
ghost use Rattle.demand_play.specs.Legal.{IsLegal, IsLegalAfter};
ghost use Rattle.demand_play.specs.Mirrors.Held.{HoldsEvents, AreAsLong, IsSetOf};
ghost use Rattle.indexmap.specs.IndexSet.{insert_key};

use crate::{Core, TableEvent};
use demand_core::{Expand, Row};
use indexmap::IndexSet;
use ir_types::{List, OutOfMemory};
use std::alloc::Global;

/// The set of these rows.
pub(crate) fn set_of(alloc: Global, rows: &[Row]) -> Result<IndexSet<Row>, OutOfMemory>
    ensures { IfOk result (λ found. IsSetOf rows.now found.keys) }
{
    let mut found = IndexSet::new(alloc);
    for row in rows {
        found.insert(*row)?;
    }
    Ok(found)
}

/// The piece of a row. By the law of expansions what it needs is that of the row.
fn expanded<E: Expand>(alloc: Global, e: &E, row: &Row) -> Result<E::Piece, OutOfMemory>
    ensures { IfOk result (λ piece. E.asked e.now piece ≡ E.needs_of e.now row.now) }
{
    e.expand(alloc, row)
}

/// The set of the rows that a row needs.
fn needs_of<E: Expand>(alloc: Global, e: &E, row: &Row) -> Result<IndexSet<Row>, OutOfMemory>
    ensures { IfOk result (λ found. IsSetOf (E.needs_of e.now row.now) found.keys) }
{
    let piece = expanded(alloc, e, row)?;
    set_of(alloc, e.needs(&piece))
}

/// The core, its rows by hash, and for each ticket what its row needs, once it is claimed.
#[derive(Drop)]
pub(crate) struct Table {
    pub(crate) core: Core,
    found: IndexSet<Row>,
    needed: List<IndexSet<Row>>,
}

impl Table {
    /// The table without rows.
    pub(crate) fn new(alloc: Global) -> Table
        ensures { (needs : List ℕ → List (List ℕ)) → HoldsEvents needs [] result.core result.found.keys (map (λ rows. rows.keys) result.needed) }
    {
        Table {
            core: Core {
                rows: List::new(alloc),
                makers: List::new(alloc),
                parents: List::new(alloc),
                claims: List::new(alloc),
            },
            found: IndexSet::new(alloc),
            needed: List::new(alloc),
        }
    }

    /// Whether this worker claimed the ticket.
    fn is_claimed(&self, ticket: usize, worker: usize) -> bool
        ensures { IsTrue result ↔ (slice_get self.now.core.claims ticket ≡ Some (Some worker)) }
    {
        match self.core.claims.get(ticket) {
            Some(Some(claimer)) => *claimer == worker,
            _ => false,
        }
    }

    /// Whether the ticket is there and unclaimed.
    fn is_unclaimed(&self, ticket: usize) -> bool
        ensures { IsTrue result ↔ (slice_get self.now.core.claims ticket ≡ Some None) }
    {
        match self.core.claims.get(ticket) {
            Some(None) => true,
            _ => false,
        }
    }

    /// Whether the row is needed by that of a claimed ticket.
    fn is_needed_by(&self, ticket: usize, row: &Row) -> bool
        ensures { IsTrue result ↔ ((rows : List (List ℕ)) × (slice_get (map (λ rows. rows.keys) self.now.needed) ticket ≡ Some rows) × Contains rows row.now) }
    {
        match self.needed.get(ticket) {
            Some(rows) => rows.contains(row),
            None => false,
        }
    }

    /// Whether the insert is legal.
    fn may_insert(
        &self,
        roots: &IndexSet<Row>,
        worker: usize,
        row: &Row,
        parent: Option<usize>,
    ) -> bool
        ensures { (needs : List ℕ → List (List ℕ)) (before : List TableEvent)
            → HoldsEvents needs before self.now.core self.now.found.keys (map (λ rows. rows.keys) self.now.needed)
            → IsTrue result ↔ IsLegalAfter needs roots.now.keys before (Insert worker row.now parent) }
    {
        if self.found.contains(row) {
            return false;
        }
        match parent {
            None => roots.contains(row),
            Some(parent) => self.is_claimed(parent, worker) && self.is_needed_by(parent, row),
        }
    }

    /// Inserts a row.
    fn insert(
        &mut self,
        alloc: Global,
        worker: usize,
        row: Row,
        parent: Option<usize>,
    ) -> Result<(), OutOfMemory>
        ensures rows { OnOk result (self.new.core.rows ≡ self.old.core.rows ++ row ∷ []) }
        ensures makers { OnOk result (self.new.core.makers ≡ self.old.core.makers ++ worker ∷ []) }
        ensures parents { OnOk result (self.new.core.parents ≡ self.old.core.parents ++ parent ∷ []) }
        ensures claims { OnOk result (self.new.core.claims ≡ self.old.core.claims ++ None ∷ []) }
        ensures found { OnOk result (self.new.found.keys ≡ insert_key bytes_eq self.old.found.keys row) }
        ensures needed { OnOk result (map (λ rows. rows.keys) self.new.needed ≡ map (λ rows. rows.keys) self.old.needed ++ [] ∷ []) }
    {
        self.found.insert(row)?;
        self.core.rows.push(row)?;
        self.core.makers.push(worker)?;
        self.core.parents.push(parent)?;
        self.core.claims.push(None)?;
        self.needed.push(IndexSet::new(alloc))?;
        Ok(())
    }

    /// Claims a ticket, and remembers what its row needs.
    fn claim<E: Expand>(
        &mut self,
        alloc: Global,
        e: &E,
        worker: usize,
        ticket: usize,
    ) -> Result<(), OutOfMemory>
        requires there { ticket < length self.old.core.claims }
        requires as_long { AreAsLong self.old.core (map (λ rows. rows.keys) self.old.needed) }
        ensures rows { OnOk result (self.new.core.rows ≡ self.old.core.rows) }
        ensures makers { OnOk result (self.new.core.makers ≡ self.old.core.makers) }
        ensures parents { OnOk result (self.new.core.parents ≡ self.old.core.parents) }
        ensures claims { OnOk result (self.new.core.claims ≡ slice_set self.old.core.claims ticket (Some worker)) }
        ensures found { OnOk result (self.new.found.keys ≡ self.old.found.keys) }
        ensures needed { OnOk result ((row : List ℕ) → slice_get self.old.core.rows ticket ≡ Some row → (rows : List (List ℕ))
            × (map (λ rows. rows.keys) self.new.needed ≡ slice_set (map (λ rows. rows.keys) self.old.needed) ticket rows)
            × IsSetOf (E.needs_of e.now row) rows) }
    {
        let row = self.core.rows.as_slice()[ticket];
        let rows = needs_of(alloc, e, &row)?;
        self.needed.set(ticket, rows);
        self.core.claims.set(ticket, Some(worker));
        Ok(())
    }

    /// Applies an event, unless it isn't legal: then the answer is false, and nothing changes.
    pub(crate) fn apply<E: Expand>(
        &mut self,
        alloc: Global,
        e: &E,
        roots: &IndexSet<Row>,
        event: &TableEvent,
    ) -> Result<bool, OutOfMemory>
        requires { AreAsLong self.old.core (map (λ rows. rows.keys) self.old.needed) }
        ensures { IfOk result (λ applied. (before : List TableEvent) → IsLegal (E.needs_of e.now) roots.now.keys before
            → HoldsEvents (E.needs_of e.now) before self.old.core self.old.found.keys (map (λ rows. rows.keys) self.old.needed)
            → MatchBool applied
            (IsLegalAfter (E.needs_of e.now) roots.now.keys before event.now
            × HoldsEvents (E.needs_of e.now) (before ++ event.now ∷ []) self.new.core self.new.found.keys (map (λ rows. rows.keys) self.new.needed))
            (¬ IsLegalAfter (E.needs_of e.now) roots.now.keys before event.now)) }
    {
        match event {
            TableEvent::Insert {
                worker,
                row,
                parent,
            } => {
                if !self.may_insert(roots, *worker, row, *parent) {
                    return Ok(false);
                }
                self.insert(alloc, *worker, *row, *parent)?;
                Ok(true)
            }
            TableEvent::Claim { worker, ticket } => {
                if !self.is_unclaimed(*ticket) {
                    return Ok(false);
                }
                self.claim(alloc, e, *worker, *ticket)?;
                Ok(true)
            }
        }
    }
}

//! The search: looks are opened as their blocks and edges are reached, wait in a worklist, and are looked at.
ghost use Rattle.std.specs.Prelude.{◌≡◌, ◌+◌, ◌<◌, ◌≤◌, ℕ, [], ◌∷◌, ◌++◌, List, Some, OnOk, IfOk, IfSome, IsTrue, IsFalse, length, map, slice_get, slice_set};
ghost use Rattle.ir_syntax.specs.declared.body.Block.{Block};
ghost use Rattle.ir_syntax.specs.Edges.{successors};
ghost use Rattle.fold_facts.specs.declared.fact.Fact.TheVariants.{Unreached};
ghost use Rattle.fold_facts.specs.Facts.{IsBelow};
ghost use Rattle.fold_facts.specs.Places.{blocks_of as blocks_in};
ghost use Rattle.fold_facts.specs.Assigned.{fact_of, edges_from};
ghost use Rattle.fold_facts.specs.OfFunction.{IsAssignmentIn, results_in};
ghost use Rattle.fold_facts.specs.Terminators.{asks as asks_for};
ghost use Rattle.fold_facts.specs.Raising.{with_fact, blank};
ghost use Rattle.fold_sparse.specs.declared.standing.Standing.TheVariants.{Unopened, Queued, Idle};
ghost use Rattle.fold_sparse.specs.Groups.{members};
ghost use Rattle.fold_sparse.specs.Looks.{looks_of, is_active as active, uses_from};
ghost use Rattle.fold_sparse.specs.Planned.{IsPlan};
ghost use Rattle.fold_sparse.specs.Solving.{Opens, Pushes, Rises, Reaches, ReachesAll, HasTargets, IsPlaced, is_unopened as unopened_at, is_queued as queued_at, is_idle as idle_at};

use crate::look::Look;
use crate::plan::Plan;
use crate::standing::Standing;
use fold_facts::{Assignment, Edges, Fact, asks};
use ir_syntax::{Block, Func, Term};
use ir_types::{List, OutOfMemory};
use std::alloc::Global;

/// The assignment so far, how each look stands, and the worklist of those that may ask for more than there is.
#[derive(Drop)]
pub(crate) struct Search {
    pub(crate) a: Assignment,
    pub(crate) standing: List<Standing>,
    pub(crate) queue: List<usize>,
}

/// Whether the edge of an entry is reached, or the block of another look.
fn is_active(a: &Assignment, look: Look) -> bool
    requires { IsPlaced a.now look }
    ensures { result ≡ active a.now look }
{
    match look {
        Look::Entry { at, from, .. } => a.enters(from, at),
        Look::Value { at, .. } => a.is_reached(at),
        Look::Term { at } => a.is_reached(at),
    }
}

/// One for each look: none was opened.
fn unopened(alloc: Global, looks: &[Look]) -> Result<List<Standing>, OutOfMemory>
    ensures { IfOk result (λ standing. standing ≡ map (λ look. Unopened) looks.now) }
{
    let mut standing = List::new(alloc);
    for _look in looks {
        standing.push(Standing::Unopened)?;
    }
    Ok(standing)
}

impl Search {
    /// Nothing is reached, and no look was opened.
    pub(crate) fn new(alloc: Global, f: &Func, plan: &Plan) -> Result<Search, OutOfMemory>
        ensures a { IfOk result (λ search. search.a ≡ blank (blocks_in f.now) Unreached) }
        ensures standing { IfOk result (λ search. search.standing ≡ map (λ look. Unopened) plan.now.looks) }
        ensures queue { IfOk result (λ search. search.queue ≡ []) }
    {
        let a = Assignment::unreached(alloc, f)?;
        let standing = unopened(alloc, plan.looks.as_slice())?;
        Ok(Search {
            a,
            standing,
            queue: List::new(alloc),
        })
    }

    /// Whether the look wasn't opened yet.
    fn is_unopened(&self, l: usize) -> bool
        ensures { result ≡ unopened_at (slice_get self.now.standing l) }
    {
        match self.standing.get(l) {
            Some(Standing::Unopened) => true,
            Some(Standing::Queued) => false,
            Some(Standing::Idle) => false,
            None => false,
        }
    }

    /// Whether the look waits.
    pub(crate) fn is_queued(&self, l: usize) -> bool
        ensures { result ≡ queued_at (slice_get self.now.standing l) }
    {
        match self.standing.get(l) {
            Some(Standing::Unopened) => false,
            Some(Standing::Queued) => true,
            Some(Standing::Idle) => false,
            None => false,
        }
    }

    /// Whether the look was looked at and doesn't wait.
    fn is_idle(&self, l: usize) -> bool
        ensures { result ≡ idle_at (slice_get self.now.standing l) }
    {
        match self.standing.get(l) {
            Some(Standing::Unopened) => false,
            Some(Standing::Queued) => false,
            Some(Standing::Idle) => true,
            None => false,
        }
    }

    /// Puts a look into the worklist.
    fn enqueue(&mut self, l: usize) -> Result<(), OutOfMemory>
        requires { l < length self.old.standing }
        ensures a { OnOk result (self.new.a ≡ self.old.a) }
        ensures standing { OnOk result (self.new.standing ≡ slice_set self.old.standing l Queued) }
        ensures queue { OnOk result (self.new.queue ≡ self.old.queue ++ l ∷ []) }
    {
        self.standing.set(l, Standing::Queued);
        self.queue.push(l)?;
        Ok(())
    }

    /// Opens a look where it is active and wasn't opened.
    fn open(&mut self, blocks: &[Block], looks: &List<Look>, l: usize) -> Result<(), OutOfMemory>
        requires looks { looks.now ≡ looks_of blocks.now }
        requires fits { IsAssignmentIn blocks.now self.old.a }
        ensures a { OnOk result (self.new.a ≡ self.old.a) }
        ensures opens { OnOk result (Opens blocks.now self.old.a self.old.standing self.new.standing self.old.queue self.new.queue (l ∷ [])) }
    {
        match looks.get(l) {
            Some(look) => {
                if !self.is_unopened(l) {
                    return Ok(());
                }
                if !is_active(&self.a, *look) {
                    return Ok(());
                }
                self.enqueue(l)?;
                Ok(())
            }
            None => Ok(()),
        }
    }

    /// Opens those of the looks that are active and weren't opened. They are put from the last to the first, since the worklist
    /// gives what was put last, and a look is best given behind those that it reads.
    pub(crate) fn open_all(
        &mut self,
        blocks: &[Block],
        looks: &List<Look>,
        group: &[usize],
    ) -> Result<(), OutOfMemory>
        requires looks { looks.now ≡ looks_of blocks.now }
        requires fits { IsAssignmentIn blocks.now self.old.a }
        ensures a { OnOk result (self.new.a ≡ self.old.a) }
        ensures opens { OnOk result (Opens blocks.now self.old.a self.old.standing self.new.standing self.old.queue self.new.queue group.now) }
    {
        for k in 0..group.len() {
            self.open(blocks, looks, group[group.len() - 1 - k])?;
        }
        Ok(())
    }

    /// Puts a look that doesn't wait into the worklist, if it was looked at.
    fn push(&mut self, l: usize) -> Result<(), OutOfMemory>
        ensures a { OnOk result (self.new.a ≡ self.old.a) }
        ensures pushes { OnOk result ((blocks : List Block) → Pushes blocks self.old.a self.old.standing self.new.standing self.old.queue self.new.queue (l ∷ [])) }
    {
        if !self.is_idle(l) {
            return Ok(());
        }
        self.enqueue(l)?;
        Ok(())
    }

    /// Puts those of the looks that were looked at and don't wait into the worklist.
    fn push_all(&mut self, group: &[usize]) -> Result<(), OutOfMemory>
        ensures a { OnOk result (self.new.a ≡ self.old.a) }
        ensures pushes { OnOk result ((blocks : List Block) → Pushes blocks self.old.a self.old.standing self.new.standing self.old.queue self.new.queue group.now) }
    {
        for l in group {
            self.push(*l)?;
        }
        Ok(())
    }

    /// Raises a result to at least what is said of it. Where it rose, the looks that read it wait.
    pub(crate) fn raise(
        &mut self,
        plan: &Plan,
        number: usize,
        said: Fact,
    ) -> Result<(), OutOfMemory>
        requires { number < length self.old.a.facts }
        ensures { OnOk result ((blocks : List Block) → IsPlan blocks plan.now → length (results_in blocks) ≡ length self.old.a.facts → Rises blocks self.old.a self.new.a self.old.standing self.new.standing self.old.queue self.new.queue number said) }
    {
        if self.a.raise(number, said) {
            self.push_all(plan.uses.group(number))?;
        }
        Ok(())
    }

    // ---- looks

    /// Reaches the k-th edge of a block, which goes to another. Where that wasn't reached, its looks are opened.
    fn reach(
        &mut self,
        blocks: &[Block],
        plan: &Plan,
        at: usize,
        k: usize,
        to: usize,
    ) -> Result<(), OutOfMemory>
        requires plan { IsPlan blocks.now plan.now }
        requires fits { IsAssignmentIn blocks.now self.old.a }
        requires there { IfSome (slice_get (edges_from self.old.a at) k) (λ edge. edge.to ≡ to) }
        requires k { k < length (edges_from self.old.a at) }
        requires to { to < length blocks.now }
        ensures { OnOk result (Reaches blocks.now self.old.a self.new.a self.old.standing self.new.standing self.old.queue self.new.queue at k to) }
    {
        let was_reached = self.a.is_reached(to);
        self.a.reach(at, k);
        if was_reached {
            return Ok(());
        }
        self.open_all(blocks, &plan.looks, plan.homes.group(to))?;
        Ok(())
    }

    /// Reaches the k-th edge of a block where it is asked for.
    fn reach_asked(
        &mut self,
        blocks: &[Block],
        plan: &Plan,
        at: usize,
        asked: Edges,
        k: usize,
        to: usize,
    ) -> Result<(), OutOfMemory>
        requires plan { IsPlan blocks.now plan.now }
        requires fits { IsAssignmentIn blocks.now self.old.a }
        requires there { IfSome (slice_get (edges_from self.old.a at) k) (λ edge. edge.to ≡ to) }
        requires k { k < length (edges_from self.old.a at) }
        requires to { to < length blocks.now }
        ensures asked { OnOk result (IsTrue (asks_for asked k) → Reaches blocks.now self.old.a self.new.a self.old.standing self.new.standing self.old.queue self.new.queue at k to) }
        ensures other { OnOk result (IsFalse (asks_for asked k) → (self.new.a ≡ self.old.a) × (self.new.standing ≡ self.old.standing) × (self.new.queue ≡ self.old.queue)) }
    {
        if !asks(asked, k) {
            return Ok(());
        }
        self.reach(blocks, plan, at, k, to)?;
        Ok(())
    }

    /// Reaches the edges of a block that are asked for.
    pub(crate) fn reach_edges(
        &mut self,
        blocks: &[Block],
        plan: &Plan,
        at: usize,
        term: &Term,
        asked: Edges,
    ) -> Result<(), OutOfMemory>
        requires plan { IsPlan blocks.now plan.now }
        requires fits { IsAssignmentIn blocks.now self.old.a }
        requires there { IfSome (slice_get blocks.now at) (λ block. block.term ≡ term.now) }
        requires at { at < length blocks.now }
        requires targets { HasTargets blocks.now term.now }
        ensures { OnOk result (ReachesAll blocks.now self.old.a self.new.a self.old.standing self.new.standing self.old.queue self.new.queue at (successors term.now) asked (length (successors term.now))) }
    {
        for k in 0..term.successor_count() {
            match term.successor(k) {
                Some(to) => self.reach_asked(blocks, plan, at, asked, k, to)?,
                None => unreachable!(),
            }
        }
        Ok(())
    }
}

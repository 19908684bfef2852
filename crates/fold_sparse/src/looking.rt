//! What a look asks for is raised, until no look waits.
ghost use Rattle.std.specs.Prelude.{◌≡◌, ◌+◌, ◌<◌, ◌≤◌, [], ◌∷◌, ◌++◌, Some, OnOk, IfSome, length, slice_get};
ghost use Rattle.fold_facts.specs.Places.{blocks_of as blocks_in};
ghost use Rattle.fold_facts.specs.Closed.{IsLeastClosed};
ghost use Rattle.fold_facts.specs.OfFunction.{IsAssignmentIn};
ghost use Rattle.fold_sparse.specs.declared.look.Look.TheVariants.{Entry as OfEntry, Value as OfValue, Term as OfTerm};
ghost use Rattle.fold_sparse.specs.Looks.{looks_of, uses_from};
ghost use Rattle.fold_sparse.specs.Planned.{IsPlan};
ghost use Rattle.fold_sparse.specs.Solving.{IsSolving, left};
ghost use Rattle.fold_sparse.specs.Looking.{IsSound, IsLooking, IsLooked};

use crate::look::Look;
use crate::plan::Plan;
use crate::search::Search;
use crate::standing::Standing;
use fold_facts::{Place, Said, transfer, transfer_entry};
use ir_syntax::{Block, Func, Term};
use ir_types::{Known, OutOfMemory};
use occam_base::Steps;
use std::sync::ledger::Ledger;

/// The blocks of a function. A declaration has none.
pub(crate) fn blocks_of(f: &Func) -> &[Block]
    ensures { result.now ≡ blocks_in f.now }
{
    match &f.body {
        Some(body) => body.blocks.as_slice(),
        None => &[],
    }
}

/// The terminator of a block.
fn term_of(blocks: &[Block], at: usize) -> &Term
    requires { at < length blocks.now }
    ensures { IfSome (slice_get blocks.now at) (λ block. block.term ≡ result.now) }
{
    &blocks[at].term
}

impl Search {
    /// Looks at an entry of a phi.
    fn look_at_entry<L: Ledger>(
        &mut self,
        f: &Func,
        known: &[Known],
        plan: &Plan,
        l: usize,
        at: usize,
        from: usize,
        phi: usize,
        entry: usize,
        number: usize,
        steps: &mut Steps<L>,
    ) -> Result<(), OutOfMemory>
        requires plan { IsPlan (blocks_in f.now) plan.now }
        requires sound { IsSound (record { known = known.now }) (blocks_in f.now) }
        requires looking { IsLooking (record { known = known.now }) (blocks_in f.now) self.old.a self.old.standing self.old.queue l (OfEntry at from phi entry number) }
        ensures looked { OnOk result (IsLooked (record { known = known.now }) (blocks_in f.now) self.old.a self.new.a self.old.standing self.new.standing self.old.queue self.new.queue) }
        ensures steps { OnOk result (steps.new ≡ steps.old + 1) }
    {
        let said = transfer_entry(f, known, at, phi, entry, &self.a, steps);
        self.raise(plan, number, said)?;
        Ok(())
    }

    /// Looks at an instruction.
    fn look_at_value<L: Ledger>(
        &mut self,
        f: &Func,
        known: &[Known],
        plan: &Plan,
        l: usize,
        at: usize,
        k: usize,
        number: usize,
        steps: &mut Steps<L>,
    ) -> Result<(), OutOfMemory>
        requires plan { IsPlan (blocks_in f.now) plan.now }
        requires sound { IsSound (record { known = known.now }) (blocks_in f.now) }
        requires looking { IsLooking (record { known = known.now }) (blocks_in f.now) self.old.a self.old.standing self.old.queue l (OfValue at k number) }
        ensures looked { OnOk result (IsLooked (record { known = known.now }) (blocks_in f.now) self.old.a self.new.a self.old.standing self.new.standing self.old.queue self.new.queue) }
        ensures steps { OnOk result (steps.new ≡ steps.old + 1) }
    {
        match transfer(f, known, Place::Inst(at, k), &self.a, steps) {
            Said::Fact(said) => {
                self.raise(plan, number, said)?;
                Ok(())
            }
            Said::Edges(_) => unreachable!(),
        }
    }

    /// Looks at a terminator.
    fn look_at_term<L: Ledger>(
        &mut self,
        f: &Func,
        known: &[Known],
        plan: &Plan,
        l: usize,
        at: usize,
        steps: &mut Steps<L>,
    ) -> Result<(), OutOfMemory>
        requires plan { IsPlan (blocks_in f.now) plan.now }
        requires sound { IsSound (record { known = known.now }) (blocks_in f.now) }
        requires looking { IsLooking (record { known = known.now }) (blocks_in f.now) self.old.a self.old.standing self.old.queue l (OfTerm at) }
        ensures looked { OnOk result (IsLooked (record { known = known.now }) (blocks_in f.now) self.old.a self.new.a self.old.standing self.new.standing self.old.queue self.new.queue) }
        ensures steps { OnOk result (steps.new ≡ steps.old + 1) }
    {
        match transfer(f, known, Place::Term(at), &self.a, steps) {
            Said::Fact(_) => unreachable!(),
            Said::Edges(asked) => {
                let blocks = blocks_of(f);
                let term = term_of(blocks, at);
                self.reach_edges(blocks, plan, at, term, asked)?;
                self.open_all(blocks, &plan.looks, plan.sources.group(at))?;
                Ok(())
            }
        }
    }

    /// Looks at what is there.
    fn look_at<L: Ledger>(
        &mut self,
        f: &Func,
        known: &[Known],
        plan: &Plan,
        l: usize,
        look: Look,
        steps: &mut Steps<L>,
    ) -> Result<(), OutOfMemory>
        requires plan { IsPlan (blocks_in f.now) plan.now }
        requires sound { IsSound (record { known = known.now }) (blocks_in f.now) }
        requires looking { IsLooking (record { known = known.now }) (blocks_in f.now) self.old.a self.old.standing self.old.queue l (look) }
        ensures looked { OnOk result (IsLooked (record { known = known.now }) (blocks_in f.now) self.old.a self.new.a self.old.standing self.new.standing self.old.queue self.new.queue) }
        ensures steps { OnOk result (steps.new ≡ steps.old + 1) }
    {
        match look {
            Look::Entry {
                at,
                from,
                phi,
                entry,
                number,
            } => self.look_at_entry(f, known, plan, l, at, from, phi, entry, number, steps),
            Look::Value { at, k, number } => {
                self.look_at_value(f, known, plan, l, at, k, number, steps)
            }
            Look::Term { at } => self.look_at_term(f, known, plan, l, at, steps),
        }
    }

    /// Looks at what the worklist gave.
    fn visit<L: Ledger>(
        &mut self,
        f: &Func,
        known: &[Known],
        plan: &Plan,
        l: usize,
        steps: &mut Steps<L>,
    ) -> Result<(), OutOfMemory>
        requires plan { IsPlan (blocks_in f.now) plan.now }
        requires sound { IsSound (record { known = known.now }) (blocks_in f.now) }
        requires solving { IsSolving (record { known = known.now }) (blocks_in f.now) self.old.a self.old.standing (self.old.queue ++ l ∷ []) [] [] }
        ensures looked { OnOk result (IsLooked (record { known = known.now }) (blocks_in f.now) self.old.a self.new.a self.old.standing self.new.standing self.old.queue self.new.queue) }
        ensures steps { OnOk result (steps.new ≤ steps.old + 1) }
    {
        if !self.is_queued(l) {
            return Ok(());
        }
        self.standing.set(l, Standing::Idle);
        match plan.looks.get(l) {
            Some(look) => {
                self.look_at(f, known, plan, l, *look, steps)?;
                Ok(())
            }
            None => unreachable!(),
        }
    }

    /// Looks at what waits until nothing does.
    pub(crate) fn run<L: Ledger>(
        &mut self,
        f: &Func,
        known: &[Known],
        plan: &Plan,
        steps: &mut Steps<L>,
    ) -> Result<(), OutOfMemory>
        requires plan { IsPlan (blocks_in f.now) plan.now }
        requires sound { IsSound (record { known = known.now }) (blocks_in f.now) }
        requires solving { IsSolving (record { known = known.now }) (blocks_in f.now) self.old.a self.old.standing self.old.queue [] [] }
        ensures fits { OnOk result (IsAssignmentIn (blocks_in f.now) self.new.a) }
        ensures least { OnOk result (IsLeastClosed (record { known = known.now }) (blocks_in f.now) self.new.a) }
        ensures steps { OnOk result (steps.new ≤ steps.old + left (uses_from (blocks_in f.now) 0 (looks_of (blocks_in f.now))) self.old.a.facts self.old.standing self.old.queue) }
    {
        while let Some(l) = self.queue.pop() {
            self.visit(f, known, plan, l, steps)?;
        }
        Ok(())
    }
}

//! Which edges are reached, by the blocks that they join.
ghost use Rattle.std.specs.Prelude.{◌≡◌, ◌==◌, ◌&&◌, ◌||◌, ℕ, false, IfOk, OnOk, map, if◌then◌else◌};
ghost use Rattle.ir_syntax.specs.Edges.{successors};
ghost use Rattle.fold_facts.specs.Assigned.{edges_from};
ghost use Rattle.fold_facts.specs.OfFunction.{IsAssignmentIn};
ghost use Rattle.interface.specs.Masks.{is_chosen};
ghost use Rattle.specialise.specs.Leaving.{edges_to};
ghost use Rattle.specialise.specs.Mirrors.Edges.{has_edge};

use crate::counts::Counts;
use fold_facts::Assignment;
use ir_syntax::{Block, Term};
use ir_types::OutOfMemory;
use std::alloc::Global;
use std::collections::HashSet;

/// The reached edges: from which block to which each goes, and its place among the edges that go so.
#[derive(Drop)]
pub(crate) struct ReachedEdges {
    edges: HashSet<(usize, usize, usize)>,
}

impl ReachedEdges {
    /// No edges.
    fn new(alloc: Global) -> ReachedEdges
        ensures { (from to j : ℕ) → has_edge result from to j ≡ false }
    {
        ReachedEdges {
            edges: HashSet::new(alloc),
        }
    }

    /// Whether the j-th edge from the one block to the other is reached.
    pub(crate) fn has(&self, from: usize, to: usize, j: usize) -> bool
        ensures { result ≡ has_edge self.now from to j }
    {
        self.edges.contains(&(from, to, j))
    }

    /// Adds the j-th edge from the one block to the other, if it is reached.
    fn add(&mut self, is_reached: bool, from: usize, to: usize, j: usize) -> Result<(), OutOfMemory>
        ensures { OnOk result ((f t i : ℕ) → has_edge self.new f t i ≡ ((is_reached && ((from == f) && ((to == t) && (j == i)))) || has_edge self.old f t i)) }
    {
        if is_reached {
            self.edges.insert((from, to, j))?;
        }
        Ok(())
    }

    /// Adds the reached edges of a block, none of which is there.
    fn add_block(
        &mut self,
        alloc: Global,
        a: &Assignment,
        from: usize,
        term: &Term,
    ) -> Result<(), OutOfMemory>
        requires edges { map (λ edge. edge.to) (edges_from a.now from) ≡ successors term.now }
        requires none { (to j : ℕ) → has_edge self.old from to j ≡ false }
        ensures { OnOk result ((f to j : ℕ) → has_edge self.new f to j ≡ (if from == f then is_chosen (edges_to a.now from to) j else has_edge self.old f to j)) }
    {
        let mut counts = Counts::new(alloc);
        for k in 0..term.successor_count() {
            match term.successor(k) {
                Some(to) => {
                    self.add(a.edge(from, k), from, to, counts.of(to))?;
                    counts.add(to)?;
                }
                None => return Ok(()),
            }
        }
        Ok(())
    }

    /// The reached edges of an assignment of these blocks. `OutOfMemory` says that the allocator refused memory.
    pub(crate) fn of(
        alloc: Global,
        a: &Assignment,
        blocks: &[Block],
    ) -> Result<ReachedEdges, OutOfMemory>
        requires of { IsAssignmentIn blocks.now a.now }
        ensures { IfOk result (λ edges. (from to j : ℕ) → has_edge edges from to j ≡ is_chosen (edges_to a.now from to) j) }
    {
        let mut edges = ReachedEdges::new(alloc);
        for (from, block) in blocks.iter().enumerate() {
            edges.add_block(alloc, a, from, &block.term)?;
        }
        Ok(edges)
    }
}

//! Assignments.
ghost use Rattle.std.specs.Prelude.{◌≡◌, ◌<◌, ◌++◌, true, false, Some, length, map, slice_get, slice_set, IfSome, IfOk, OnOk, MatchBool, not, if◌then◌else◌};
ghost use Rattle.std.specs.List.{filter_map};
ghost use Rattle.ir_syntax.specs.Results.{result_type, block_results};
ghost use Rattle.fold_facts.specs.declared.edge.Edge.{Edge};
ghost use Rattle.fold_facts.specs.Facts.{IsBelow, join as joined};
ghost use Rattle.fold_facts.specs.Raising.{with_edge, blank as blank_of, blank_edges};
ghost use Rattle.fold_facts.specs.Assigned.{edges_from, enters as enters_in, is_reached as reached, fact_of as fact_in};

use crate::Fact;
use crate::edge::Edge;
use crate::entered::Entered;
use crate::operands::fact_of;
use crate::order::{is_below, join};
use ir_syntax::{Block, Inst};
use ir_types::{List, OutOfMemory};
use std::alloc::Global;
use std::marker::Model;

/// What is known of each result of a function, and which of its edges are reached.
#[derive(Drop)]
pub struct Assignment {
    facts: List<Fact>,
    edges: Vec<List<Edge>>,
    // which blocks are reached
    reached: List<bool>,
    // from which blocks which are entered
    entered: Entered,
}

impl Model for Assignment {
    ghost use Rattle.std.specs.Prelude.{◌≡◌, ℕ, Bool, Some, length, slice_get};
    ghost use Rattle.fold_facts.specs.Assigned.{Assigned, is_reached};
    ghost use Rattle.fold_facts.specs.Entering.{IsIndexed};

    ghost Value = { Assigned };

    ghost view = { λ a. record { facts = a.facts; edges = a.edges.items } };

    ghost invariant = { λ a. (length a.reached ≡ length a.edges.items) × ((place : ℕ) (flag : Bool) → slice_get a.reached place ≡ Some flag → flag ≡ is_reached (record { facts = a.facts; edges = a.edges.items }) place) × IsIndexed a.entered a.edges.items };
}

/// Sets a flag, where there is one at the place.
fn set_flag(flags: &mut List<bool>, place: usize)
    ensures { flags.new ≡ slice_set flags.old place true }
{
    if place < flags.len() {
        flags.set(place, true);
    }
}

/// Adds the fact once for each result of a block.
fn add_facts(facts: &mut List<Fact>, fact: Fact, block: &Block) -> Result<(), OutOfMemory>
    ensures { OnOk result (facts.new ≡ facts.old ++ map (λ ty. fact) (block_results block.now)) }
{
    for _phi in block.phis.as_slice() {
        facts.push(fact)?;
    }
    add_inst_facts(facts, fact, block.insts.as_slice())
}

/// Adds the fact once for each result of the instructions.
fn add_inst_facts(facts: &mut List<Fact>, fact: Fact, insts: &[Inst]) -> Result<(), OutOfMemory>
    ensures { OnOk result (facts.new ≡ facts.old ++ map (λ ty. fact) (filter_map result_type insts.now)) }
{
    for inst in insts {
        if inst.has_result() {
            facts.push(fact)?;
        }
    }
    Ok(())
}

/// The edges of a block, none of them reached.
fn edges_of(alloc: Global, block: &Block) -> Result<List<Edge>, OutOfMemory>
    ensures { IfOk result (λ edges. edges ≡ blank_edges block.now) }
{
    let mut edges = List::new(alloc);
    for k in 0..block.term.successor_count() {
        match block.term.successor(k) {
            Some(to) => edges.push(Edge { to, reached: false })?,
            None => return Ok(edges),
        }
    }
    Ok(edges)
}

impl Assignment {
    /// The fact for each result of the blocks, and no edge reached.
    pub(crate) fn blank(
        alloc: Global,
        blocks: &[Block],
        fact: Fact,
    ) -> Result<Assignment, OutOfMemory>
        ensures { IfOk result (λ a. a ≡ blank_of blocks.now fact) }
    {
        let mut facts = List::new(alloc);
        let mut edges = Vec::new(alloc);
        let mut reached = List::new(alloc);
        let mut entered = Entered::new(alloc);
        for (place, block) in blocks.iter().enumerate() {
            let row = edges_of(alloc, block)?;
            entered.list_all(place, row.as_slice())?;
            add_facts(&mut facts, fact, block)?;
            edges.push(row)?;
            reached.push(place == 0)?;
        }
        Ok(Assignment {
            facts,
            edges,
            reached,
            entered,
        })
    }

    /// The facts of the results, by their numbers.
    pub(crate) fn facts(&self) -> &[Fact]
        ensures { result.now ≡ self.now.facts }
    {
        self.facts.as_slice()
    }

    /// What is known of the k-th result, counted from 0 as `Body::reg_type` counts.
    pub fn fact(&self, k: usize) -> Fact
        requires { k < length self.now.facts }
        ensures { slice_get self.now.facts k ≡ Some result }
    {
        self.facts.as_slice()[k]
    }

    /// The k-th edge that leaves the block.
    fn edge_at(&self, block: usize, k: usize) -> Edge
        requires { k < length (edges_from self.now block) }
        ensures { slice_get (edges_from self.now block) k ≡ Some result }
    {
        self.edges[block].as_slice()[k]
    }

    /// Whether the k-th edge that leaves the block is reached.
    pub fn edge(&self, block: usize, k: usize) -> bool
        requires { k < length (edges_from self.now block) }
        ensures { IfSome (slice_get (edges_from self.now block) k) (λ edge. result ≡ edge.reached) }
    {
        self.edge_at(block, k).reached
    }

    /// Whether the block is reached: it is the first, or an edge that comes to it is. The block is to be one of the function.
    pub fn is_reached(&self, place: usize) -> bool
        requires { place < length self.now.edges }
        ensures { result ≡ reached self.now place }
    {
        self.reached.as_slice()[place]
    }

    /// Whether an edge from the one block to the other is reached.
    pub fn enters(&self, from: usize, place: usize) -> bool
        ensures { result ≡ enters_in self.now from place }
    {
        match self.entered.of(from, place) {
            Some(is_entered) => is_entered,
            None => false,
        }
    }

    /// Raises the fact of the k-th result to at least what is said of it. Gives whether that was new. The result is to be there.
    pub fn raise(&mut self, k: usize, said: Fact) -> bool
        requires { k < length self.old.facts }
        ensures value { self.new ≡ record { facts = slice_set self.old.facts k (joined (fact_in self.old.facts k) said); edges = self.old.edges } }
        ensures changed { MatchBool (not result) (IsBelow said (fact_in self.old.facts k)) (IsBelow said (fact_in self.old.facts k) → ⊥) }
    {
        let before = fact_of(self.facts.as_slice(), k);
        self.facts.set(k, join(before, said));
        !is_below(said, before)
    }

    /// Writes the fact of a result.
    pub(crate) fn put(&mut self, k: usize, fact: Fact)
        requires { k < length self.old.facts }
        ensures { self.new ≡ record { facts = slice_set self.old.facts k fact; edges = self.old.edges } }
    {
        self.facts.set(k, fact);
    }

    /// Reaches the k-th edge that leaves the block, and so the block that it goes to.
    fn open(&mut self, from: usize, k: usize, to: usize)
        requires { slice_get (edges_from self.old from) k ≡ Some (record { to = to; reached = false }) }
        ensures { self.new ≡ with_edge self.old from k to }
    {
        self.edges[from].set(k, Edge { to, reached: true });
        set_flag(&mut self.reached, to);
        self.entered.enter(from, to);
    }

    /// Reaches the k-th edge that leaves the block, and so the block that it goes to. Gives whether that was new. The edge is to
    /// be there.
    pub fn reach(&mut self, from: usize, k: usize) -> bool
        requires { k < length (edges_from self.old from) }
        ensures new { IfSome (slice_get (edges_from self.old from) k) (λ edge. result ≡ not edge.reached) }
        ensures value { IfSome (slice_get (edges_from self.old from) k) (λ edge. self.new ≡ (if edge.reached then self.old else with_edge self.old from k edge.to)) }
    {
        let edge = self.edge_at(from, k);
        if edge.reached {
            return false;
        }
        self.open(from, k, edge.to);
        true
    }
}

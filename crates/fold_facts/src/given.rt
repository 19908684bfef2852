//! Assignments that are given by their edges and facts.
ghost use Rattle.std.specs.Prelude.{◌≡◌, ◌≢◌, All, AllPairs, IfOk};
ghost use Rattle.fold_facts.specs.declared.fact.Fact.TheVariants.{Unreached, Varying};
ghost use Rattle.fold_facts.specs.Places.{blocks_of as blocks_in};
ghost use Rattle.fold_facts.specs.OfFunction.{IsAssignmentOf, IsAssignmentIn};
ghost use Rattle.fold_facts.specs.Raising.{blank};
ghost use Rattle.fold_facts.specs.Given.{IsEdgeIn, IsFactIn, HasEdges, HasFacts};

use crate::says::blocks_of;
use crate::{Assignment, Fact};
use ir_syntax::{Block, Func};
use ir_types::OutOfMemory;
use std::alloc::Global;

/// Reaches the edges, in an assignment that reaches none.
fn reach_all(a: &mut Assignment, blocks: &[Block], edges: &[(usize, usize)])
    requires start { a.old ≡ blank blocks.now Varying }
    requires edges { All (IsEdgeIn blocks.now) edges.now }
    ensures edges { HasEdges blocks.now a.new edges.now }
    ensures facts { a.new.facts ≡ a.old.facts }
    ensures fits { IsAssignmentIn blocks.now a.new }
{
    for (from, k) in edges {
        a.reach(*from, *k);
    }
}

/// Writes the facts, where all others vary.
fn put_all(a: &mut Assignment, blocks: &[Block], facts: &[(usize, Fact)])
    requires start { a.old.facts ≡ (blank blocks.now Varying).facts }
    requires fits { IsAssignmentIn blocks.now a.old }
    requires facts { All (IsFactIn blocks.now) facts.now }
    requires distinct { AllPairs (λ one other. one.0 ≢ other.0) facts.now }
    ensures edges { a.new.edges ≡ a.old.edges }
    ensures facts { HasFacts blocks.now a.new facts.now }
    ensures fits { IsAssignmentIn blocks.now a.new }
{
    for (k, fact) in facts {
        a.put(*k, *fact);
    }
}

impl Assignment {
    /// The assignment of a function in which no result and no edge is reached: a solver's first. `OutOfMemory` says that the
    /// allocator refused memory.
    pub fn unreached(alloc: Global, f: &Func) -> Result<Assignment, OutOfMemory>
        ensures { IfOk result (λ a. a ≡ blank (blocks_in f.now) Unreached) }
    {
        Assignment::blank(alloc, blocks_of(f), Fact::Unreached)
    }

    /// The assignment that reaches just these edges, each a block and a place among the edges that leave it, and that has these
    /// facts, each with the number of its result. Every other result varies.
    ///
    /// The edges and results are to be those of the function, no result twice, and each known fact of its result's type and no
    /// `One(Known::Unknown)`. `OutOfMemory` says that the allocator refused memory.
    pub fn of(
        alloc: Global,
        f: &Func,
        edges: &[(usize, usize)],
        facts: &[(usize, Fact)],
    ) -> Result<Assignment, OutOfMemory>
        requires edges { All (IsEdgeIn (blocks_in f.now)) edges.now }
        requires facts { All (IsFactIn (blocks_in f.now)) facts.now }
        requires distinct { AllPairs (λ one other. one.0 ≢ other.0) facts.now }
        ensures of { IfOk result (IsAssignmentOf f.now) }
        ensures edges { IfOk result (λ a. HasEdges (blocks_in f.now) a edges.now) }
        ensures facts { IfOk result (λ a. HasFacts (blocks_in f.now) a facts.now) }
    {
        let blocks = blocks_of(f);
        let mut a = Assignment::blank(alloc, blocks, Fact::Varying)?;
        reach_all(&mut a, blocks, edges);
        put_all(&mut a, blocks, facts);
        Ok(a)
    }
}

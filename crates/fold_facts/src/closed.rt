//! Whether an assignment is closed.
ghost use Rattle.std.specs.Prelude.{◌≡◌, ◌+◌, ◌<◌, ◌↔◌, ◌^◌, IsSome, IfSome, IsTrue, length, map, slice_get};
ghost use Rattle.ir_syntax.specs.Edges.{successors};
ghost use Rattle.ir_syntax.specs.Results.{result_type, block_results};
ghost use Rattle.ir_syntax.specs.SoundFunctions.{IsSoundFunction};
ghost use Rattle.fold_facts.specs.Facts.{IsBelow};
ghost use Rattle.fold_facts.specs.Assigned.{fact_of as fact_in, edges_from, IsReachedEdge, is_reached as reached_in};
ghost use Rattle.fold_facts.specs.Instructions.{inst_fact as of_inst};
ghost use Rattle.fold_facts.specs.Phis.{phi_fact as of_phi};
ghost use Rattle.fold_facts.specs.Terminators.{asks as asked_at};
ghost use Rattle.fold_facts.specs.Places.{blocks_of as blocks_in};
ghost use Rattle.fold_facts.specs.Closed.{ArePhisClosed, AreInstsClosed, AreEdgesClosed, IsClosedBlock, IsClosed};
ghost use Rattle.fold_facts.specs.OfFunction.{IsAssignmentOf, IsAssignmentIn, results_in};

use crate::instructions::inst_fact;
use crate::operands::fact_of;
use crate::order::is_below;
use crate::phis::phi_fact;
use crate::raising::{result_count, results_of};
use crate::says::blocks_of;
use crate::terminators::{asks, term_edges};
use crate::{Assignment, Edges};
use ir_syntax::{Block, Func, Inst, Phi};
use ir_types::Known;

/// Whether the result of a phi, which is of a number, is at least what the phi says.
fn is_phi_closed(known: &[Known], a: &Assignment, place: usize, number: usize, phi: &Phi) -> bool
    ensures { IsTrue result ↔ IsBelow (of_phi (record { known = known.now }) a.now place phi.now) (fact_in a.now.facts number) }
{
    let said = phi_fact(known, a, place, phi);
    is_below(said, fact_of(a.facts(), number))
}

/// Whether the result of each phi of a block is at least what the phi says.
fn are_phis_closed(
    known: &[Known],
    a: &Assignment,
    place: usize,
    first: usize,
    block: &Block,
) -> bool
    requires { first + length (block_results block.now) < 2 ^ 64 }
    ensures { IsTrue result ↔ ArePhisClosed (record { known = known.now }) a.now place first block.now }
{
    for (k, phi) in block.phis.as_slice().iter().enumerate() {
        if !is_phi_closed(known, a, place, first + k, phi) {
            return false;
        }
    }
    true
}

/// Whether the result of an instruction, if it has one, is at least what the instruction says.
fn is_inst_closed(known: &[Known], a: &Assignment, number: usize, inst: &Inst) -> bool
    ensures { IsTrue result ↔ (IsSome (result_type inst.now) → IsBelow (of_inst (record { known = known.now }) a.now.facts inst.now) (fact_in a.now.facts number)) }
{
    if !inst.has_result() {
        return true;
    }
    let said = inst_fact(known, a.facts(), inst);
    is_below(said, fact_of(a.facts(), number))
}

/// Whether the result of each other instruction of a block is at least what the instruction says.
fn are_insts_closed(known: &[Known], a: &Assignment, first: usize, block: &Block) -> bool
    requires { first + length (block_results block.now) < 2 ^ 64 }
    ensures { IsTrue result ↔ AreInstsClosed (record { known = known.now }) a.now first block.now }
{
    let mut number = first + block.phis.len();
    for inst in block.insts.as_slice() {
        if !is_inst_closed(known, a, number, inst) {
            return false;
        }
        number += results_of(inst);
    }
    true
}

/// Whether the k-th edge of a block is reached, if it is asked for.
fn is_edge_closed(a: &Assignment, place: usize, asked: Edges, k: usize) -> bool
    requires { k < length (edges_from a.now place) }
    ensures { IsTrue result ↔ (IsTrue (asked_at asked k) → IfSome (slice_get (edges_from a.now place) k) (λ edge. IsTrue edge.reached)) }
{
    !asks(asked, k) || a.edge(place, k)
}

/// Whether each edge that the block's terminator asks for is reached.
fn are_edges_closed(known: &[Known], a: &Assignment, place: usize, block: &Block) -> bool
    requires { map (λ edge. edge.to) (edges_from a.now place) ≡ successors block.now.term }
    ensures { IsTrue result ↔ AreEdgesClosed (record { known = known.now }) a.now place block.now }
{
    let asked = term_edges(known, a.facts(), &block.term);
    for k in 0..block.term.successor_count() {
        if !is_edge_closed(a, place, asked, k) {
            return false;
        }
    }
    true
}

/// Whether a block has what its places ask for.
fn is_block_closed(
    known: &[Known],
    a: &Assignment,
    place: usize,
    first: usize,
    block: &Block,
) -> bool
    requires few { first + length (block_results block.now) < 2 ^ 64 }
    requires edges { map (λ edge. edge.to) (edges_from a.now place) ≡ successors block.now.term }
    ensures { IsTrue result ↔ IsClosedBlock (record { known = known.now }) a.now place first block.now }
{
    are_phis_closed(known, a, place, first, block)
        && are_insts_closed(known, a, first, block)
        && are_edges_closed(known, a, place, block)
}

/// Whether a block has what its places ask for, if it is reached.
fn is_closed_if_reached(
    known: &[Known],
    a: &Assignment,
    place: usize,
    first: usize,
    block: &Block,
) -> bool
    requires there { place < length a.now.edges }
    requires few { first + length (block_results block.now) < 2 ^ 64 }
    requires edges { map (λ edge. edge.to) (edges_from a.now place) ≡ successors block.now.term }
    ensures { IsTrue result ↔ (IsTrue (reached_in a.now place) → IsClosedBlock (record { known = known.now }) a.now place first block.now) }
{
    !a.is_reached(place) || is_block_closed(known, a, place, first, block)
}

/// Whether each reached block has what its places ask for.
fn are_blocks_closed(known: &[Known], a: &Assignment, blocks: &[Block]) -> bool
    requires fits { IsAssignmentIn blocks.now a.now }
    requires few { length (results_in blocks.now) < 2 ^ 64 }
    ensures { IsTrue result ↔ IsClosed (record { known = known.now }) blocks.now a.now }
{
    let mut first = 0;
    for (place, block) in blocks.iter().enumerate() {
        if !is_closed_if_reached(known, a, place, first, block) {
            return false;
        }
        first += result_count(block);
    }
    true
}

/// Whether each place of a reached block of the function has what it asks for, where `known` is known of the parameters. It
/// takes no memory. The function is to be formed, well typed and definite by itself, and the assignment one of it.
pub fn is_closed(f: &Func, known: &[Known], a: &Assignment) -> bool
    requires sound { IsSoundFunction f.now }
    requires of { IsAssignmentOf f.now a.now }
    ensures { IsTrue result ↔ IsClosed (record { known = known.now }) (blocks_in f.now) a.now }
{
    are_blocks_closed(known, a, blocks_of(f))
}

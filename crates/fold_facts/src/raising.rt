//! Rounds over the places of a body, each of which raises an assignment to what the place says.
ghost use Rattle.std.specs.Prelude.{◌≡◌, ◌+◌, ◌<◌, ◌^◌, ◌&&◌, ◌||◌, ℕ, All, None, Some, false, IsSome, IfSome, IsTrue, IsFalse, length, is_some, slice_get, MatchBool, not, if◌then◌else◌};
ghost use Rattle.std.specs.List.{filter_map};
ghost use Rattle.ir_syntax.specs.Results.{result_type, block_results};
ghost use Rattle.ir_syntax.specs.Definite.{has_result, first_result};
ghost use Rattle.fold_facts.specs.Facts.{IsBelow};
ghost use Rattle.fold_facts.specs.Assigned.{fact_of as fact_in, edges_from, is_reached as reached_in};
ghost use Rattle.fold_facts.specs.Instructions.{inst_fact as of_inst};
ghost use Rattle.fold_facts.specs.Terminators.{asks as asked_at};
ghost use Rattle.fold_facts.specs.Closed.{ArePhisClosed, AreInstsClosed, AreEdgesClosed, IsClosedBlock, IsClosed};
ghost use Rattle.fold_facts.specs.OfFunction.{IsAssignmentIn, results_in};
ghost use Rattle.fold_facts.specs.Raising.{with_fact, with_edge, SaysItsTypes, IsVisit, Raises};

use crate::instructions::inst_fact;
use crate::phis::phi_fact;
use crate::terminators::{asks, term_edges};
use crate::{Assignment, Edges};
use ir_syntax::{Block, Inst};
use ir_types::Known;

fn either(one: bool, other: bool) -> bool
    ensures { result ≡ (one || other) }
{
    one || other
}

/// How many results the instruction has, one at most.
pub(crate) fn results_of(inst: &Inst) -> usize
    ensures { result ≡ has_result (result_type inst.now) }
{
    if inst.has_result() { 1 } else { 0 }
}

/// How many results the block has.
pub(crate) fn result_count(block: &Block) -> usize
    requires { length (block_results block.now) < 2 ^ 64 }
    ensures { result ≡ length (block_results block.now) }
{
    let mut count = block.phis.len();
    for inst in block.insts.as_slice() {
        count += results_of(inst);
    }
    count
}

/// Raises the results of a block's phis. Gives whether any rose.
fn raise_phis(
    a: &mut Assignment,
    known: &[Known],
    blocks: &[Block],
    place: usize,
    first: usize,
    block: &Block,
) -> bool
    requires { IsVisit (record { known = known.now }) blocks.now a.old place first block.now }
    ensures raises { Raises (record { known = known.now }) blocks.now a.old a.new result }
    ensures closed { IsFalse result → ArePhisClosed (record { known = known.now }) a.old place first block.now }
{
    let mut changed = false;
    for (k, phi) in block.phis.as_slice().iter().enumerate() {
        let said = phi_fact(known, a, place, phi);
        let raised = a.raise(first + k, said);
        changed = either(changed, raised);
    }
    changed
}

/// Raises the result of an instruction, if it has one, which is of a number. Gives whether it rose.
fn raise_inst(a: &mut Assignment, known: &[Known], number: usize, inst: &Inst) -> bool
    requires { IsSome (result_type inst.now) → number < length a.old.facts }
    ensures value { a.new ≡ (if is_some (result_type inst.now) then with_fact a.old number (of_inst (record { known = known.now }) a.old.facts inst.now) else a.old) }
    ensures none { result_type inst.now ≡ None → result ≡ false }
    ensures changed { IsSome (result_type inst.now) → MatchBool (not result) (IsBelow (of_inst (record { known = known.now }) a.old.facts inst.now) (fact_in a.old.facts number)) (IsBelow (of_inst (record { known = known.now }) a.old.facts inst.now) (fact_in a.old.facts number) → ⊥) }
{
    if !inst.has_result() {
        return false;
    }
    let said = inst_fact(known, a.facts(), inst);
    a.raise(number, said)
}

/// Raises the results of a block's other instructions. Gives whether any rose.
fn raise_insts(
    a: &mut Assignment,
    known: &[Known],
    blocks: &[Block],
    place: usize,
    first: usize,
    block: &Block,
) -> bool
    requires { IsVisit (record { known = known.now }) blocks.now a.old place first block.now }
    ensures raises { Raises (record { known = known.now }) blocks.now a.old a.new result }
    ensures closed { IsFalse result → AreInstsClosed (record { known = known.now }) a.old first block.now }
{
    let mut changed = false;
    let mut number = first + block.phis.len();
    for inst in block.insts.as_slice() {
        let raised = raise_inst(a, known, number, inst);
        changed = either(changed, raised);
        number += results_of(inst);
    }
    changed
}

/// Reaches the k-th edge of a block where it is asked for. Gives whether that was new.
fn reach_asked(a: &mut Assignment, place: usize, asked: Edges, k: usize) -> bool
    requires { k < length (edges_from a.old place) }
    ensures new { IfSome (slice_get (edges_from a.old place) k) (λ edge. result ≡ (asked_at asked k && not edge.reached)) }
    ensures value { IfSome (slice_get (edges_from a.old place) k) (λ edge. a.new ≡ (if asked_at asked k && not edge.reached then with_edge a.old place k edge.to else a.old)) }
{
    if !asks(asked, k) {
        return false;
    }
    a.reach(place, k)
}

/// Reaches the edges that a block's terminator asks for. Gives whether any was new.
fn reach_edges(
    a: &mut Assignment,
    known: &[Known],
    blocks: &[Block],
    place: usize,
    first: usize,
    block: &Block,
) -> bool
    requires { IsVisit (record { known = known.now }) blocks.now a.old place first block.now }
    ensures raises { Raises (record { known = known.now }) blocks.now a.old a.new result }
    ensures closed { IsFalse result → AreEdgesClosed (record { known = known.now }) a.old place block.now }
{
    let asked = term_edges(known, a.facts(), &block.term);
    let mut changed = false;
    for k in 0..block.term.successor_count() {
        let reached = reach_asked(a, place, asked, k);
        changed = either(changed, reached);
    }
    changed
}

/// Raises the assignment to what the places of a reached block say. Gives whether it rose.
fn raise_block(
    a: &mut Assignment,
    known: &[Known],
    blocks: &[Block],
    place: usize,
    first: usize,
    block: &Block,
) -> bool
    requires { IsVisit (record { known = known.now }) blocks.now a.old place first block.now }
    ensures raises { Raises (record { known = known.now }) blocks.now a.old a.new result }
    ensures closed { IsFalse result → IsClosedBlock (record { known = known.now }) a.old place first block.now }
{
    let phis = raise_phis(a, known, blocks, place, first, block);
    let insts = raise_insts(a, known, blocks, place, first, block);
    let edges = reach_edges(a, known, blocks, place, first, block);
    let results = either(phis, insts);
    either(results, edges)
}

/// Raises the assignment to what the places of a block say, if it is reached. Gives whether it rose.
fn raise_if_reached(
    a: &mut Assignment,
    known: &[Known],
    blocks: &[Block],
    place: usize,
    first: usize,
    block: &Block,
) -> bool
    requires there { slice_get blocks.now place ≡ Some block.now }
    requires numbered { first ≡ first_result blocks.now place }
    requires fits { IsAssignmentIn blocks.now a.old }
    requires few { length (results_in blocks.now) < 2 ^ 64 }
    requires typed { SaysItsTypes (record { known = known.now }) (results_in blocks.now) block.now }
    ensures raises { Raises (record { known = known.now }) blocks.now a.old a.new result }
    ensures closed { IsFalse result → IsTrue (reached_in a.old place) → IsClosedBlock (record { known = known.now }) a.old place first block.now }
{
    if !a.is_reached(place) {
        return false;
    }
    raise_block(a, known, blocks, place, first, block)
}

/// Raises the assignment to what each place of a reached block says, in the order of the text. Gives whether it rose: where
/// not, it was closed.
pub(crate) fn raise_all(a: &mut Assignment, known: &[Known], blocks: &[Block]) -> bool
    requires fits { IsAssignmentIn blocks.now a.old }
    requires few { length (results_in blocks.now) < 2 ^ 64 }
    requires typed { All (SaysItsTypes (record { known = known.now }) (results_in blocks.now)) blocks.now }
    ensures raises { Raises (record { known = known.now }) blocks.now a.old a.new result }
    ensures closed { IsFalse result → IsClosed (record { known = known.now }) blocks.now a.old }
{
    let mut changed = false;
    let mut first = 0;
    for (place, block) in blocks.iter().enumerate() {
        let raised = raise_if_reached(a, known, blocks, place, first, block);
        changed = either(changed, raised);
        first += result_count(block);
    }
    changed
}

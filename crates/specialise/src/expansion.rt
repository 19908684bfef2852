//! The pieces that demands expand into.
ghost use Rattle.std.specs.Prelude.{◌≡◌, ◌<◌, ◌^◌, IfOk, length};
ghost use Rattle.ir_syntax.specs.SoundFunctions.{IsSoundFunction};
ghost use Rattle.ir_syntax.specs.Programs.{IsProgram};
ghost use Rattle.ir_syntax.specs.Symbols.{item_at, IsFunctionFor};
ghost use Rattle.ir_syntax.specs.declared.item.Item.TheVariants as item;
ghost use Rattle.fold_facts.specs.Closed.{IsLeastClosed};
ghost use Rattle.fold_facts.specs.OfFunction.{AreKnownOf, IsAssignmentOf, IsAssignmentIn, results_in};
ghost use Rattle.fold_facts.specs.Places.{blocks_of as blocks_in};
ghost use Rattle.demands.specs.Demands.{IsDemand, IsVariable};
ghost use Rattle.demands.specs.declared.demand.Demand.TheVariants as demand;
ghost use Rattle.interface.specs.Asked.{AreCycles};
ghost use Rattle.specialise.specs.Leaving.{leaving};
ghost use Rattle.specialise.specs.Residual.{residual as residual_of};
ghost use Rattle.specialise.specs.Pieces.{IsPieceBy, IsResidual, IsAssignmentFor, HasLeastPiece, IsVariablePiece, IsExpansion, IsExpansionAt};
ghost use Rattle.specialise.specs.Mirrors.Shown.{shown};

use crate::Piece;
use crate::blocks::left_blocks;
use crate::edges::ReachedEdges;
use crate::left::Left;
use crate::masks::{kept_of, reached_of};
use crate::needs::{body_needs, init_needs};
use demands::Demand;
use fold_facts::Assignment;
use fold_sparse::solve;
use interface::{facts_of, item_of};
use ir_syntax::{Block, Body, Func, Item, Program, Sym, Var};
use ir_types::{Known, List, OutOfMemory};
use occam_base::Steps;
use std::alloc::Global;
use std::marker::Brand;
use std::sync::ledger::{Blank, Ledger};

fn blocks_of(func: &Func) -> &[Block]
    ensures { result.now ≡ blocks_in func.now }
{
    match &func.body {
        Some(body) => body.blocks.as_slice(),
        None => &[],
    }
}

/// How the blocks are left by an assignment.
fn left_of<'a>(
    alloc: Global,
    known: &'a [Known],
    a: &Assignment,
    blocks: &[Block],
) -> Result<Left<'a>, OutOfMemory>
    requires of { IsAssignmentIn blocks.now a.now }
    requires few { length (results_in blocks.now) < 2 ^ 64 }
    ensures { IfOk result (λ left. shown left ≡ leaving known.now blocks.now a.now) }
{
    let facts = facts_of(alloc, a, blocks)?;
    let reached = reached_of(alloc, a, blocks)?;
    let kept = kept_of(alloc, a, facts.as_slice(), blocks)?;
    let edges = ReachedEdges::of(alloc, a, blocks)?;
    Ok(Left {
        known,
        facts,
        reached,
        kept,
        edges,
    })
}

/// What is left of a function by an assignment.
fn residual_body(
    alloc: Global,
    known: &[Known],
    func: &Func,
    a: &Assignment,
) -> Result<Body, OutOfMemory>
    requires of { IsAssignmentOf func.now a.now }
    requires few { length (results_in (blocks_in func.now)) < 2 ^ 64 }
    ensures { IfOk result (λ body. body ≡ residual_of known.now func.now a.now) }
{
    let blocks = blocks_of(func);
    let left = left_of(alloc, known, a, blocks)?;
    Ok(Body {
        blocks: left_blocks(alloc, &left, blocks)?,
    })
}

/// The piece of a function by an assignment, where this is known of its parameters. It stands in the module `home`.
fn piece_by(
    alloc: Global,
    p: &Program,
    cycles: &List<List<bool>>,
    home: usize,
    func: &Func,
    known: &[Known],
    a: &Assignment,
) -> Result<Piece, OutOfMemory>
    requires of { IsAssignmentOf func.now a.now }
    requires sound { IsSoundFunction func.now }
    ensures { IfOk result (IsPieceBy p.now cycles.now home known.now func.now a.now) }
{
    let body = residual_body(alloc, known, func, a)?;
    let calls = body_needs(alloc, p, cycles, home, body.blocks.as_slice())?;
    let size = body.count() as u64;
    Ok(Piece {
        body: Some(body),
        calls,
        size,
    })
}

/// The least closed assignment of a function, with a counter of steps that nobody reads.
fn solved<L: Ledger>(
    alloc: Global,
    func: &Func,
    known: &[Known],
    blank: Blank,
) -> Result<Assignment, OutOfMemory>
    requires name { blank.name ≡ L.name }
    requires parts { blank.parts ≡ L.parts }
    requires some { 0 < L.parts }
    requires known { AreKnownOf func.now known.now }
    requires sound { IsSoundFunction func.now }
    ensures of { IfOk result (IsAssignmentOf func.now) }
    ensures least { IfOk result (IsLeastClosed (record { known = known.now }) (blocks_in func.now)) }
{
    let mut steps: Steps<L> = Steps::new(blank);
    solve(alloc, func, known, &mut steps)
}

/// The piece of a function by the least closed assignment.
fn expand_function(
    alloc: Global,
    p: &Program,
    cycles: &List<List<bool>>,
    home: usize,
    func: &Func,
    known: &[Known],
) -> Result<Piece, OutOfMemory>
    requires known { AreKnownOf func.now known.now }
    requires sound { IsSoundFunction func.now }
    ensures { IfOk result (HasLeastPiece p.now cycles.now home known.now func.now) }
{
    let a = solved::<Brand>(alloc, func, known, Blank::new(1))?;
    piece_by(alloc, p, cycles, home, func, known, &a)
}

/// The piece of a variable in the module `home`.
fn expand_variable(alloc: Global, p: &Program, home: usize, var: &Var) -> Result<Piece, OutOfMemory>
    ensures { IfOk result (IsVariablePiece p.now home var.now) }
{
    let calls = init_needs(alloc, p, home, &var.init)?;
    Ok(Piece {
        body: None,
        calls,
        size: 0,
    })
}

/// What a demand of the program expands into, whatever `cycles` holds.
pub(crate) fn expanded(
    alloc: Global,
    p: &Program,
    cycles: &List<List<bool>>,
    d: &Demand,
) -> Result<Piece, OutOfMemory>
    requires demand { IsDemand p.now.modules d.now }
    ensures expansion { IfOk result (IsExpansion p.now cycles.now d.now) }
    ensures program { IsProgram p.now }
{
    match d {
        Demand::Func {
            func: symbol,
            pattern,
        } => match item_of(p, *symbol) {
            Some(Item::Func(func)) => {
                expand_function(alloc, p, cycles, symbol.module, func, pattern.items())
            }
            Some(Item::Var(_)) => unreachable!(),
            None => unreachable!(),
        },
        Demand::Var { var: symbol } => match item_of(p, *symbol) {
            Some(Item::Var(var)) => expand_variable(alloc, p, symbol.module, var),
            Some(Item::Func(_)) => unreachable!(),
            None => unreachable!(),
        },
    }
}

/// What a demand of the program expands into: of a function its residual body by the least closed assignment, the rows that
/// this body needs, in row order and each once, and how many phis, instructions and terminators it has; of a variable no body,
/// the rows that its initialiser needs, and 0.
///
/// In the body, calls are still written to the original functions with all their arguments, and parameters keep their numbers.
/// Results and blocks are counted anew. `cycles` says of each item whether it is on a call cycle, as `on_cycles` gives it.
/// `OutOfMemory` says that the allocator refused memory.
pub fn expand(
    alloc: Global,
    p: &Program,
    cycles: &List<List<bool>>,
    d: &Demand,
) -> Result<Piece, OutOfMemory>
    requires cycles { AreCycles p.now cycles.now }
    requires demand { IsDemand p.now.modules d.now }
    ensures { IfOk result (IsExpansion p.now cycles.now d.now) }
{
    expanded(alloc, p, cycles, d)
}

/// What a demand of the program for a function leaves and needs by another assignment of the function, as `expand` gives it by
/// the least closed one. `OutOfMemory` says that the allocator refused memory.
pub fn residual(
    alloc: Global,
    p: &Program,
    cycles: &List<List<bool>>,
    d: &Demand,
    a: &Assignment,
) -> Result<Piece, OutOfMemory>
    requires cycles { AreCycles p.now cycles.now }
    requires assigned { IsAssignmentFor p.now d.now a.now }
    ensures { IfOk result (IsResidual p.now cycles.now d.now a.now) }
{
    match d {
        Demand::Func {
            func: symbol,
            pattern,
        } => match item_of(p, *symbol) {
            Some(Item::Func(func)) => {
                piece_by(alloc, p, cycles, symbol.module, func, pattern.items(), a)
            }
            Some(Item::Var(_)) => unreachable!(),
            None => unreachable!(),
        },
        Demand::Var { .. } => unreachable!(),
    }
}

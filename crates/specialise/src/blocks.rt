//! What is left of blocks.
ghost use Rattle.std.specs.Prelude.{◌≡◌, ◌+◌, ◌<◌, ◌^◌, ◌++◌, IfOk, OnOk, length};
ghost use Rattle.std.specs.List.{filter_map};
ghost use Rattle.ir_syntax.specs.Definite.{has_result};
ghost use Rattle.ir_syntax.specs.Results.{result_type, block_results};
ghost use Rattle.fold_facts.specs.OfFunction.{results_in};
ghost use Rattle.specialise.specs.Residual.{left_inst as inst_left, left_insts as insts_left, left_block as block_left, left_blocks as blocks_left, stays as stays_in};
ghost use Rattle.specialise.specs.Mirrors.Shown.{shown};

use crate::left::Left;
use crate::phis::left_phis;
use crate::terminators::left_term;
use interface::result_count;
use ir_syntax::{Block, Inst};
use ir_types::{List, OutOfMemory};
use std::alloc::Global;

/// How many results an instruction has: one or none.
fn results_of(inst: &Inst) -> usize
    ensures { result ≡ has_result (result_type inst.now) }
{
    match inst.result_type() {
        Some(_) => 1,
        None => 0,
    }
}

/// Whether the instruction stays, whose result, if it has one, has the number.
fn stays(left: &Left<'_>, number: usize, inst: &Inst) -> bool
    ensures { result ≡ stays_in (shown left.now) number (result_type inst.now) }
{
    match inst.result_type() {
        Some(_) => left.kept.is_chosen(number),
        None => true,
    }
}

/// Adds what is left of an instruction, whose result, if it has one, has the number.
fn add_inst(
    alloc: Global,
    made: &mut List<Inst>,
    left: &Left<'_>,
    number: usize,
    inst: &Inst,
) -> Result<(), OutOfMemory>
    ensures { OnOk result (made.new ≡ made.old ++ inst_left (shown left.now) number inst.now) }
{
    if stays(left, number, inst) {
        made.push(inst.mapped(alloc, left)?)?;
    }
    Ok(())
}

/// The instructions that stay, where the results have the numbers from `first` on.
fn left_insts(
    alloc: Global,
    left: &Left<'_>,
    first: usize,
    insts: &[Inst],
) -> Result<List<Inst>, OutOfMemory>
    requires few { first + length (filter_map result_type insts.now) < 2 ^ 64 }
    ensures { IfOk result (λ made. made ≡ insts_left (shown left.now) first insts.now) }
{
    let mut made = List::new(alloc);
    let mut number = first;
    for inst in insts {
        add_inst(alloc, &mut made, left, number, inst)?;
        number += results_of(inst);
    }
    Ok(made)
}

/// Adds what is left of the block at a place, whose results have the numbers from `first` on.
fn add_block(
    alloc: Global,
    made: &mut List<Block>,
    left: &Left<'_>,
    place: usize,
    first: usize,
    block: &Block,
) -> Result<(), OutOfMemory>
    requires few { first + length (block_results block.now) < 2 ^ 64 }
    ensures { OnOk result (made.new ≡ made.old ++ block_left (shown left.now) place first block.now) }
{
    if left.reached.is_chosen(place) {
        let phis = left_phis(alloc, left, place, first, block.phis.as_slice())?;
        let behind = first + block.phis.len();
        let insts = left_insts(alloc, left, behind, block.insts.as_slice())?;
        let term = left_term(alloc, left, &block.term)?;
        made.push(Block { phis, insts, term })?;
    }
    Ok(())
}

/// What is left of the reached blocks.
pub(crate) fn left_blocks(
    alloc: Global,
    left: &Left<'_>,
    blocks: &[Block],
) -> Result<List<Block>, OutOfMemory>
    requires few { length (results_in blocks.now) < 2 ^ 64 }
    ensures { IfOk result (λ made. made ≡ blocks_left (shown left.now) 0 0 blocks.now) }
{
    let mut made = List::new(alloc);
    let mut first = 0;
    for (place, block) in blocks.iter().enumerate() {
        add_block(alloc, &mut made, left, place, first, block)?;
        first += result_count(block);
    }
    Ok(made)
}

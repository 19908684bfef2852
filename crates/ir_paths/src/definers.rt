//! Which block defines which register.
ghost use Rattle.std.specs.Prelude.{◌≡◌, ◌++◌, map, OnOk, IfOk};
ghost use Rattle.std.specs.List.{filter_map};
ghost use Rattle.ir_syntax.specs.Results.{result_type, block_results};
ghost use Rattle.ir_syntax.specs.Definite.{has_result};
ghost use Rattle.ir_paths.specs.FarUses.{definers_from};

use ir_syntax::{Block, Inst};
use ir_types::OutOfMemory;
use std::alloc::Global;

/// For each register the place of the block that defines it.
pub(crate) fn definers(alloc: Global, blocks: &[Block]) -> Result<Vec<usize>, OutOfMemory>
    ensures { IfOk result (λ definers. definers.items ≡ definers_from 0 blocks.now) }
{
    let mut definers = Vec::new(alloc);
    for (place, block) in blocks.iter().enumerate() {
        add_block(&mut definers, place, block)?;
    }
    Ok(definers)
}

fn add_block(definers: &mut Vec<usize>, place: usize, block: &Block) -> Result<(), OutOfMemory>
    ensures { OnOk result (definers.new.items ≡ definers.old.items ++ map (λ ty. place) (block_results block.now)) }
{
    for _phi in block.phis.as_slice() {
        definers.push(place)?;
    }
    add_insts(definers, place, block.insts.as_slice())
}

fn add_insts(definers: &mut Vec<usize>, place: usize, insts: &[Inst]) -> Result<(), OutOfMemory>
    ensures { OnOk result (definers.new.items ≡ definers.old.items ++ map (λ ty. place) (filter_map result_type insts.now)) }
{
    for inst in insts {
        if results_of(inst) == 1 {
            definers.push(place)?;
        }
    }
    Ok(())
}

/// How many results the instruction has, one at most.
pub(crate) fn results_of(inst: &Inst) -> usize
    ensures { result ≡ has_result (result_type inst.now) }
{
    if inst.has_result() { 1 } else { 0 }
}

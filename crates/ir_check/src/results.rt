//! Types of the results of a body.
ghost use Rattle.std.specs.Prelude.{◌≡◌, ◌++◌, IfOk, OnOk};
ghost use Rattle.std.specs.List.{filter_map};
ghost use Rattle.ir_syntax.specs.Results.{result_type, block_results, results};

use ir_syntax::{Block, Body, Inst};
use ir_types::{OutOfMemory, Scalar};
use std::alloc::Global;

/// Adds the types of the instructions' results.
fn add_insts(types: &mut Vec<Scalar>, insts: &[Inst]) -> Result<(), OutOfMemory>
    ensures { OnOk result (types.new.items ≡ types.old.items ++ filter_map result_type insts.now) }
{
    for inst in insts {
        match inst.result_type() {
            Some(ty) => types.push(ty)?,
            None => {}
        }
    }
    Ok(())
}

/// Adds the types of the block's results.
fn add_block(types: &mut Vec<Scalar>, block: &Block) -> Result<(), OutOfMemory>
    ensures { OnOk result (types.new.items ≡ types.old.items ++ block_results block.now) }
{
    for phi in block.phis.as_slice() {
        types.push(phi.ty)?;
    }
    add_insts(types, block.insts.as_slice())
}

/// The types of the body's results, in the order of the text.
pub fn results_of(alloc: Global, body: &Body) -> Result<Vec<Scalar>, OutOfMemory>
    ensures { IfOk result (λ types. types.items ≡ results body.now) }
{
    let mut types = Vec::new(alloc);
    for block in body.blocks.as_slice() {
        add_block(&mut types, block)?;
    }
    Ok(types)
}

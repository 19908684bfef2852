//! The uses that their own block doesn't settle.
ghost use Rattle.std.specs.Prelude.{◌≡◌, ◌+◌, ◌^◌, ◌<◌, ◌++◌, length, flat_map, IfOk, OnOk};
ghost use Rattle.std.specs.List.{filter_map};
ghost use Rattle.ir_syntax.specs.Results.{result_type, block_results};
ghost use Rattle.ir_syntax.specs.Operands.{operands, term_operands};
ghost use Rattle.ir_paths.specs.FarUses.{definers_from, far_use, operand_far, entry_far, phi_far, insts_far, block_far, far_from, far_uses as far_uses_of};

use crate::definers::results_of;
use ir_syntax::{Block, Inst, Operand, Phi, Term};
use ir_types::OutOfMemory;
use sqlite_items::at;
use std::alloc::Global;

/// A use, in the block at `place`, of a register that the block at `definer` defines.
#[derive(Clone, Copy)]
pub(crate) struct Far {
    pub(crate) definer: usize,
    pub(crate) place: usize,
}

/// The uses that their own block doesn't settle, in the order of the text.
pub(crate) fn far_uses(
    alloc: Global,
    definers: &[usize],
    blocks: &[Block],
) -> Result<Vec<Far>, OutOfMemory>
    requires { definers.now ≡ definers_from 0 blocks.now }
    ensures { IfOk result (λ far. far.items ≡ far_uses_of blocks.now) }
{
    let mut far = Vec::new(alloc);
    let mut first = 0;
    for (place, block) in blocks.iter().enumerate() {
        first = add_block(&mut far, definers, blocks.len(), place, first, block)?;
    }
    Ok(far)
}

// Adds those of a block whose results begin with the number `first`, and gives the first number of the next block.
fn add_block(
    far: &mut Vec<Far>,
    definers: &[usize],
    count: usize,
    place: usize,
    first: usize,
    block: &Block,
) -> Result<usize, OutOfMemory>
    requires { first + length (block_results block.now) < 2 ^ 64 }
    ensures added { OnOk result (far.new.items ≡ far.old.items ++ block_far definers.now count place first block.now) }
    ensures next { IfOk result (λ next. next ≡ first + length (block_results block.now)) }
{
    for phi in block.phis.as_slice() {
        add_phi(far, definers, count, phi)?;
    }
    let until = first + block.phis.len();
    add_insts(
        far,
        definers,
        place,
        until,
        block.insts.as_slice(),
        &block.term,
    )
}

fn add_phi(
    far: &mut Vec<Far>,
    definers: &[usize],
    count: usize,
    phi: &Phi,
) -> Result<(), OutOfMemory>
    ensures { OnOk result (far.new.items ≡ far.old.items ++ phi_far definers.now count phi.now) }
{
    for entry in phi.entries.as_slice() {
        add_entry(far, definers, count, entry)?;
    }
    Ok(())
}

// An operand of a phi is used at the end of the block that its edge comes from.
fn add_entry(
    far: &mut Vec<Far>,
    definers: &[usize],
    count: usize,
    entry: &(Operand, usize),
) -> Result<(), OutOfMemory>
    ensures { OnOk result (far.new.items ≡ far.old.items ++ entry_far definers.now count entry.now) }
{
    if entry.1 >= count {
        return Ok(());
    }
    match &entry.0 {
        Operand::Param(_) => Ok(()),
        Operand::Reg(register) => add_use(far, definers, entry.1, true, *register),
        Operand::Const(_) => Ok(()),
    }
}

// Adds those of instructions and the terminator behind them, where the results with numbers below `until` come before,
// and gives the first number behind them.
fn add_insts(
    far: &mut Vec<Far>,
    definers: &[usize],
    place: usize,
    until: usize,
    insts: &[Inst],
    term: &Term,
) -> Result<usize, OutOfMemory>
    requires { until + length (filter_map result_type insts.now) < 2 ^ 64 }
    ensures added { OnOk result (far.new.items ≡ far.old.items ++ insts_far definers.now place until insts.now term.now) }
    ensures next { IfOk result (λ next. next ≡ until + length (filter_map result_type insts.now)) }
{
    let mut until = until;
    for inst in insts {
        add_inst(far, definers, place, until, inst)?;
        until += results_of(inst);
    }
    add_term(far, definers, place, until, term)?;
    Ok(until)
}

fn add_inst(
    far: &mut Vec<Far>,
    definers: &[usize],
    place: usize,
    until: usize,
    inst: &Inst,
) -> Result<(), OutOfMemory>
    ensures { OnOk result (far.new.items ≡ far.old.items ++ flat_map (operand_far definers.now place until) (operands inst.now)) }
{
    for k in 0..inst.operand_count() {
        match inst.operand(k) {
            Some(operand) => add_operand(far, definers, place, until, operand)?,
            None => return Ok(()),
        }
    }
    Ok(())
}

fn add_term(
    far: &mut Vec<Far>,
    definers: &[usize],
    place: usize,
    until: usize,
    term: &Term,
) -> Result<(), OutOfMemory>
    ensures { OnOk result (far.new.items ≡ far.old.items ++ flat_map (operand_far definers.now place until) (term_operands term.now)) }
{
    match term.operand() {
        Some(operand) => add_operand(far, definers, place, until, operand),
        None => Ok(()),
    }
}

fn add_operand(
    far: &mut Vec<Far>,
    definers: &[usize],
    place: usize,
    until: usize,
    operand: &Operand,
) -> Result<(), OutOfMemory>
    ensures { OnOk result (far.new.items ≡ far.old.items ++ operand_far definers.now place until operand.now) }
{
    match operand {
        Operand::Param(_) => Ok(()),
        Operand::Reg(register) => add_use(far, definers, place, *register < until, *register),
        Operand::Const(_) => Ok(()),
    }
}

// Adds a use of a register unless its own block defines it before.
fn add_use(
    far: &mut Vec<Far>,
    definers: &[usize],
    place: usize,
    before: bool,
    register: usize,
) -> Result<(), OutOfMemory>
    ensures { OnOk result (far.new.items ≡ far.old.items ++ far_use definers.now place before register) }
{
    match at(definers, register) {
        Some(definer) => {
            let definer = *definer;
            if !before || definer != place {
                far.push(Far { definer, place })?;
            }
            Ok(())
        }
        None => Ok(()),
    }
}

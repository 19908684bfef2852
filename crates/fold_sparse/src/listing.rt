//! The looks of a function, and what they read.
ghost use Rattle.std.specs.Prelude.{◌≡◌, ◌+◌, ◌<◌, ◌^◌, [], ◌∷◌, ◌++◌, length, slice_get, option_copied, option_to_list, IfOk, OnOk};
ghost use Rattle.std.specs.List.{filter_map};
ghost use Rattle.ir_syntax.specs.Operands.{operands};
ghost use Rattle.ir_syntax.specs.Results.{result_type, block_results};
ghost use Rattle.fold_facts.specs.OfFunction.{results_in};
ghost use Rattle.fold_facts.specs.Places.{inst_at, entry_at};
ghost use Rattle.fold_sparse.specs.Looks.{entry_looks, phi_looks, inst_looks, block_looks, looks_of as looks_in, register, registers, look_operands, block_term_operands, paired, uses_from, source, sources_from, home, homes_from};

use crate::look::Look;
use ir_syntax::{Block, Inst, Operand, Phi};
use ir_types::{List, OutOfMemory};
use std::alloc::Global;

/// Adds a look for each entry of a phi.
fn add_entries(
    looks: &mut List<Look>,
    at: usize,
    phi: usize,
    number: usize,
    entries: &[(Operand, usize)],
) -> Result<(), OutOfMemory>
    ensures { OnOk result (looks.new ≡ looks.old ++ entry_looks at phi 0 number entries.now) }
{
    for (entry, (_operand, from)) in entries.iter().enumerate() {
        looks.push(Look::Entry {
            at,
            from: *from,
            phi,
            entry,
            number,
        })?;
    }
    Ok(())
}

/// Adds the looks of phis, whose results begin with a number.
fn add_phis(
    looks: &mut List<Look>,
    at: usize,
    first: usize,
    phis: &[Phi],
) -> Result<(), OutOfMemory>
    requires { first + length phis.now < 2 ^ 64 }
    ensures { OnOk result (looks.new ≡ looks.old ++ phi_looks at 0 first phis.now) }
{
    for (k, phi) in phis.iter().enumerate() {
        add_entries(looks, at, k, first + k, phi.entries.as_slice())?;
    }
    Ok(())
}

/// Adds a look for each instruction that has a result. Gives the number of the next result.
fn add_insts(
    looks: &mut List<Look>,
    at: usize,
    first: usize,
    insts: &[Inst],
) -> Result<usize, OutOfMemory>
    requires { first + length (filter_map result_type insts.now) < 2 ^ 64 }
    ensures looks { OnOk result (looks.new ≡ looks.old ++ inst_looks at 0 first insts.now) }
    ensures next { IfOk result (λ next. next ≡ first + length (filter_map result_type insts.now)) }
{
    let mut number = first;
    for (k, inst) in insts.iter().enumerate() {
        if inst.has_result() {
            looks.push(Look::Value { at, k, number })?;
            number += 1;
        }
    }
    Ok(number)
}

/// Adds the looks of a block. Gives the number of the next block's first result.
fn add_block(
    looks: &mut List<Look>,
    at: usize,
    first: usize,
    block: &Block,
) -> Result<usize, OutOfMemory>
    requires { first + length (block_results block.now) < 2 ^ 64 }
    ensures looks { OnOk result (looks.new ≡ looks.old ++ block_looks at first block.now) }
    ensures next { IfOk result (λ next. next ≡ first + length (block_results block.now)) }
{
    add_phis(looks, at, first, block.phis.as_slice())?;
    let next = add_insts(looks, at, first + block.phis.len(), block.insts.as_slice())?;
    looks.push(Look::Term { at })?;
    Ok(next)
}

/// Adds the looks of the blocks, in the order of the text. Gives how many results they have.
pub(crate) fn add_blocks(looks: &mut List<Look>, blocks: &[Block]) -> Result<usize, OutOfMemory>
    requires few { length (results_in blocks.now) < 2 ^ 64 }
    requires start { looks.old ≡ [] }
    ensures looks { OnOk result (looks.new ≡ looks_in blocks.now) }
    ensures results { IfOk result (λ results. results ≡ length (results_in blocks.now)) }
{
    let mut first = 0;
    for (at, block) in blocks.iter().enumerate() {
        first = add_block(looks, at, first, block)?;
    }
    Ok(first)
}

// ---- what they read

/// Adds the pair of the result that an operand reads, if it is one, and a look's number.
fn add_use(pairs: &mut List<(usize, usize)>, l: usize, operand: &Operand) -> Result<(), OutOfMemory>
    ensures { OnOk result (pairs.new ≡ pairs.old ++ paired l (registers (operand.now ∷ []))) }
{
    match operand {
        Operand::Param(_) => Ok(()),
        Operand::Reg(k) => Ok(pairs.push((*k, l))?),
        Operand::Const(_) => Ok(()),
    }
}

fn add_inst_uses(pairs: &mut List<(usize, usize)>, l: usize, inst: &Inst) -> Result<(), OutOfMemory>
    ensures { OnOk result (pairs.new ≡ pairs.old ++ paired l (registers (operands inst.now))) }
{
    for k in 0..inst.operand_count() {
        match inst.operand(k) {
            Some(operand) => add_use(pairs, l, operand)?,
            None => return Ok(()),
        }
    }
    Ok(())
}

fn inst_of(blocks: &[Block], at: usize, k: usize) -> Option<&Inst>
    ensures { option_copied result ≡ inst_at blocks.now at k }
{
    match blocks.get(at) {
        Some(block) => block.insts.get(k),
        None => None,
    }
}

fn entry_of(blocks: &[Block], at: usize, phi: usize, entry: usize) -> Option<&(Operand, usize)>
    ensures { option_copied result ≡ entry_at blocks.now at phi entry }
{
    match blocks.get(at) {
        Some(block) => match block.phis.get(phi) {
            Some(phi) => phi.entries.get(entry),
            None => None,
        },
        None => None,
    }
}

fn term_operand(blocks: &[Block], at: usize) -> Option<&Operand>
    ensures { option_to_list (option_copied result) ≡ block_term_operands (slice_get blocks.now at) }
{
    match blocks.get(at) {
        Some(block) => block.term.operand(),
        None => None,
    }
}

/// Adds a pair of each result that a look reads and the look's number.
fn add_uses(
    pairs: &mut List<(usize, usize)>,
    blocks: &[Block],
    l: usize,
    look: Look,
) -> Result<(), OutOfMemory>
    ensures { OnOk result (pairs.new ≡ pairs.old ++ paired l (registers (look_operands blocks.now look))) }
{
    match look {
        Look::Entry { at, phi, entry, .. } => match entry_of(blocks, at, phi, entry) {
            Some(entry) => add_use(pairs, l, &entry.0),
            None => Ok(()),
        },
        Look::Value { at, k, .. } => match inst_of(blocks, at, k) {
            Some(inst) => add_inst_uses(pairs, l, inst),
            None => Ok(()),
        },
        Look::Term { at } => match term_operand(blocks, at) {
            Some(operand) => add_use(pairs, l, operand),
            None => Ok(()),
        },
    }
}

/// The pairs of a result and the number of a look that reads it, once for each operand.
pub(crate) fn uses_of(
    alloc: Global,
    blocks: &[Block],
    looks: &[Look],
) -> Result<List<(usize, usize)>, OutOfMemory>
    ensures { IfOk result (λ pairs. pairs ≡ uses_from blocks.now 0 looks.now) }
{
    let mut pairs = List::new(alloc);
    for (l, look) in looks.iter().enumerate() {
        add_uses(&mut pairs, blocks, l, *look)?;
    }
    Ok(pairs)
}

/// The pairs of a block and the number of a look at an entry for its edges.
pub(crate) fn sources_of(alloc: Global, looks: &[Look]) -> Result<List<(usize, usize)>, OutOfMemory>
    ensures { IfOk result (λ pairs. pairs ≡ sources_from 0 looks.now) }
{
    let mut pairs = List::new(alloc);
    for (l, look) in looks.iter().enumerate() {
        match look {
            Look::Entry { from, .. } => pairs.push((*from, l))?,
            Look::Value { .. } => {}
            Look::Term { .. } => {}
        }
    }
    Ok(pairs)
}

/// The pairs of a block and the number of a look at one of its other instructions or its terminator.
pub(crate) fn homes_of(alloc: Global, looks: &[Look]) -> Result<List<(usize, usize)>, OutOfMemory>
    ensures { IfOk result (λ pairs. pairs ≡ homes_from 0 looks.now) }
{
    let mut pairs = List::new(alloc);
    for (l, look) in looks.iter().enumerate() {
        match look {
            Look::Entry { .. } => {}
            Look::Value { at, .. } => pairs.push((*at, l))?,
            Look::Term { at } => pairs.push((*at, l))?,
        }
    }
    Ok(pairs)
}

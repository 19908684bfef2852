//! Blocks and their lines.
#![tactic(auto, using(crate::proofs::Bytes::written))]

ghost use Rattle.std.specs.Prelude.{◌≡◌, ◌+◌, ◌^◌, ◌<◌, ◌≤◌, ◌++◌, OnOk, IfOk, All, length, map, sum, is_some, if◌then◌else◌};
ghost use Rattle.std.specs.List.{filter_map};
ghost use Rattle.ir_lexer.specs.Written.{bytes_of};
ghost use Rattle.ir_syntax.specs.Results.{result_type, block_results, block_count, count};
ghost use Rattle.ir_syntax.specs.FormedBody.{item_name, Places, FormedInst, FormedBlock};
ghost use Rattle.ir_writer.specs.Instructions.{inst_parts, phi_parts, term_parts, line, named, phi_lines, inst_lines, block_parts, blocks_parts};

use crate::instructions::{write_inst, write_phi};
use crate::operands::write_local;
use crate::terminators::write_term;
use crate::words::write_decimal;
use ir_syntax::{Block, Inst, Item, Phi, Term};
use ir_types::{Bytes, OutOfMemory};

/// Adds the line of a phi, whose result has this number.
fn write_phi_line(
    out: &mut Bytes,
    items: &[Item],
    number: usize,
    phi: &Phi,
) -> Result<(), OutOfMemory>
    ensures { OnOk result (out.new ≡ out.old ++ bytes_of (line (named number (phi_parts (map item_name items.now) phi.now)))) }
{
    out.append(b"  ")?;
    write_local(out, b"%v", number)?;
    out.append(b" = ")?;
    write_phi(out, items, phi)?;
    out.append(b"\n")
}

/// Adds the lines of phis, whose results are numbered from `first` on, and says which number is next.
fn write_phis(
    out: &mut Bytes,
    items: &[Item],
    first: usize,
    phis: &[Phi],
) -> Result<usize, OutOfMemory>
    requires { first + length phis.now < 2 ^ 64 }
    ensures next { IfOk result (λ next. next ≡ first + length phis.now) }
    ensures text { OnOk result (out.new ≡ out.old ++ bytes_of (phi_lines (map item_name items.now) first phis.now)) }
{
    let mut number = first;
    for phi in phis {
        write_phi_line(out, items, number, phi)?;
        number += 1;
    }
    Ok(number)
}

/// Adds the line of an instruction. If it has a result, that has this number.
fn write_inst_line(
    out: &mut Bytes,
    items: &[Item],
    number: usize,
    inst: &Inst,
) -> Result<(), OutOfMemory>
    requires { (places : Places) × FormedInst places inst.now }
    ensures { OnOk result (out.new ≡ out.old ++ bytes_of (if is_some (result_type inst.now) then line (named number (inst_parts (map item_name items.now) inst.now)) else line (inst_parts (map item_name items.now) inst.now))) }
{
    out.append(b"  ")?;
    if inst.has_result() {
        write_local(out, b"%v", number)?;
        out.append(b" = ")?;
    }
    write_inst(out, items, inst)?;
    out.append(b"\n")
}

/// Adds the lines of instructions, whose results are numbered from `first` on, and says which number is next.
fn write_insts(
    out: &mut Bytes,
    items: &[Item],
    first: usize,
    insts: &[Inst],
) -> Result<usize, OutOfMemory>
    requires few { first + length insts.now < 2 ^ 64 }
    requires formed { (places : Places) × All (FormedInst places) insts.now }
    ensures next { IfOk result (λ next. next ≡ first + length (filter_map result_type insts.now)) }
    ensures text { OnOk result (out.new ≡ out.old ++ bytes_of (inst_lines (map item_name items.now) first insts.now)) }
{
    let mut number = first;
    for inst in insts {
        write_inst_line(out, items, number, inst)?;
        if inst.has_result() {
            number += 1;
        }
    }
    Ok(number)
}

/// Adds the line of a terminator.
fn write_term_line(out: &mut Bytes, items: &[Item], term: &Term) -> Result<(), OutOfMemory>
    ensures { OnOk result (out.new ≡ out.old ++ bytes_of (line (term_parts (map item_name items.now) term.now))) }
{
    out.append(b"  ")?;
    write_term(out, items, term)?;
    out.append(b"\n")
}

/// Adds the block at a place, whose results are numbered from `first` on, and says which number is next.
fn write_block(
    out: &mut Bytes,
    items: &[Item],
    place: usize,
    first: usize,
    block: &Block,
) -> Result<usize, OutOfMemory>
    requires few { first + block_count block.now < 2 ^ 64 }
    requires formed { (places : Places) × FormedBlock places block.now }
    ensures next { IfOk result (λ next. next ≡ first + length (block_results block.now)) }
    ensures text { OnOk result (out.new ≡ out.old ++ bytes_of (block_parts (map item_name items.now) place first block.now)) }
{
    out.append(b"b")?;
    write_decimal(out, place as u64)?;
    out.append(b":\n")?;
    let number = write_phis(out, items, first, block.phis.as_slice())?;
    let next = write_insts(out, items, number, block.insts.as_slice())?;
    write_term_line(out, items, &block.term)?;
    Ok(next)
}

/// Adds the blocks of a body.
pub fn write_blocks(out: &mut Bytes, items: &[Item], blocks: &[Block]) -> Result<(), OutOfMemory>
    requires few { sum (map block_count blocks.now) ≤ 1048576 }
    requires formed { (places : Places) × All (FormedBlock places) blocks.now }
    ensures { OnOk result (out.new ≡ out.old ++ bytes_of (blocks_parts (map item_name items.now) 0 0 blocks.now)) }
{
    let mut number = 0;
    for (place, block) in blocks.iter().enumerate() {
        number = write_block(out, items, place, number, block)?;
    }
    Ok(())
}

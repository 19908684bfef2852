//! Branches.
ghost use Rattle.std.specs.Prelude.{◌≡◌, ◌+◌, ◌≤◌, [], OnOk, Some, length};
ghost use Rattle.std.specs.Option.{option_copied};
ghost use Rattle.block_memory.specs.Answers.{Gives, IsMeant, and_then, answered, or_stuck};
ghost use Rattle.ir_steps.specs.Branches as branches;
ghost use Rattle.ir_steps.specs.Calls as calls;
ghost use Rattle.ir_meaning.specs.Mirrors.Numbering as numbering;
ghost use Rattle.ir_meaning.specs.Models.{frame_of};
ghost use Rattle.ir_meaning.specs.Mirrors.Outcomes.{IsStepped};
ghost use Rattle.ir_meaning.specs.Mirrors.Stacks.{point_of};
ghost use Rattle.block_memory.specs.Blocks.{MemoryData};

use crate::frame::Frame;
use crate::halt::Halt;
use crate::operands::value;
use crate::places::block_in;
use crate::stack::Stack;
use crate::table::number_at;
use block_memory::Val;
use int_ops::Cause;
use ir_steps::Stepped;
use ir_syntax::{Operand, Phi, Program, Sym};
use ir_types::OutOfMemory;
use sqlite_items::Items as List;

/// The operand of the entry for the block that the edge comes from.
fn entry_for(entries: &[(Operand, usize)], from: usize) -> Option<&Operand>
    ensures { option_copied result ≡ branches.entry_for from entries.now }
{
    for entry in entries {
        if entry.1 == from {
            return Some(&entry.0);
        }
    }
    None
}

/// The value of a phi on the edge from the frame's block.
fn phi_value(p: &Program, frame: &Frame, phi: &Phi) -> Val<Sym>
    requires { IsMeant (branches.phi_value p.now (frame_of p.now frame.now) phi.now) }
    ensures { branches.phi_value p.now (frame_of p.now frame.now) phi.now ≡ Gives result }
{
    match entry_for(phi.entries.as_slice(), frame.block) {
        Some(operand) => value(p, frame, operand),
        None => unreachable!(),
    }
}

/// Reads the values of phis.
fn read_phis(
    p: &Program,
    frame: &Frame,
    phis: &[Phi],
    values: &mut Vec<Val<Sym>>,
) -> Result<(), OutOfMemory>
    requires meant { IsMeant (branches.phi_values p.now (frame_of p.now frame.now) phis.now) }
    ensures { OnOk result (branches.phi_values p.now (frame_of p.now frame.now) phis.now ≡ Gives values.new.items) }
{
    values.clear();
    for phi in phis {
        values.push(phi_value(p, frame, phi))?;
    }
    Ok(())
}

/// The frame enters a block of its body: all phis are read before any is set.
fn enter_block(
    p: &Program,
    table: &[List<List<usize>>],
    frame: &mut Frame,
    values: &mut Vec<Val<Sym>>,
    to: usize,
) -> Result<(), OutOfMemory>
    requires table { table.now ≡ numbering.table_of p.now.modules }
    requires meant { IsMeant (and_then (branches.enters_block p.now (frame_of p.now frame.old) to) (or_stuck (calls.body_of p.now frame.old.func))) }
    ensures { OnOk result (and_then (branches.enters_block p.now (frame_of p.now frame.old) to) (or_stuck (calls.body_of p.now frame.old.func)) ≡ Gives (frame_of p.now frame.new)) }
{
    let block = block_in(p, frame.func(), to);
    read_phis(p, frame, block.phis.as_slice(), values)?;
    let first = number_at(table, frame.func(), to);
    frame.enter(to, first, block.phis.len(), values.as_slice());
    Ok(())
}

/// The block that a condition chooses.
pub fn chosen(one: usize, other: usize, cond: &Val<Sym>) -> Result<usize, Cause>
    requires { IsMeant (branches.chosen one other cond.now) }
    ensures { branches.chosen one other cond.now ≡ answered result }
{
    match cond {
        Val::Num(n) => Ok(if *n == 0 { other } else { one }),
        Val::Null => unreachable!(),
        Val::At(_, _) => unreachable!(),
        Val::Poison => Err(Cause::BranchOnPoison),
    }
}

fn case_for(n: u64, cases: &[(u64, usize)], default: usize) -> usize
    ensures { result ≡ branches.case_for n cases.now default }
{
    for case in cases {
        if case.0 == n {
            return case.1;
        }
    }
    default
}

/// The block of a switch.
pub fn switched(default: usize, cases: &[(u64, usize)], value: &Val<Sym>) -> Result<usize, Cause>
    requires { IsMeant (branches.switched default cases.now value.now) }
    ensures { branches.switched default cases.now value.now ≡ answered result }
{
    match value {
        Val::Num(n) => Ok(case_for(*n, cases, default)),
        Val::Null => unreachable!(),
        Val::At(_, _) => unreachable!(),
        Val::Poison => Err(Cause::BranchOnPoison),
    }
}

/// Branches to a block.
pub fn branch(
    p: &Program,
    table: &[List<List<usize>>],
    stack: &mut Stack,
    values: &mut Vec<Val<Sym>>,
    to: usize,
) -> Result<Stepped, Halt>
    requires table { table.now ≡ numbering.table_of p.now.modules }
    requires meant { IsMeant (and_then (branches.enters_block p.now (frame_of p.now stack.old.top) to) (or_stuck (calls.body_of p.now stack.old.top.func))) }
    ensures { (mem : MemoryData) → IsStepped p.now result stack.new mem mem (branches.branch p.now (point_of p.now stack.old mem) to) }
{
    enter_block(p, table, &mut stack.top, values, to)?;
    Ok(Stepped::Went)
}

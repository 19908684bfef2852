//! Steps of a running call.
ghost use Rattle.std.specs.Prelude.{◌≡◌, ◌+◌, ◌<◌, ◌^◌, ◌∷◌, IsSome, List};
ghost use Rattle.std.specs.Option.{option_copied};
ghost use Rattle.block_memory.specs.Answers.{IsMeant};
ghost use Rattle.ir_steps.specs.Steps as steps;
ghost use Rattle.ir_meaning.specs.Models as models;
ghost use Rattle.ir_meaning.specs.Mirrors.Numbering as numbering;
ghost use Rattle.ir_meaning.specs.Mirrors.Outcomes.{IsStepped};
ghost use Rattle.ir_meaning.specs.Mirrors.Stacks.{point_of, stack_of};
ghost use Rattle.ir_meaning.specs.Mirrors.Typing.{IsNarrowInst, Stands};

use crate::accesses::{allocate, store};
use crate::branches::{branch, chosen, switched};
use crate::calls::call;
use crate::evaluating::read;
use crate::halt::Halt;
use crate::operands::value;
use crate::places::{block_in, inst_at};
use crate::returns::give_back;
use crate::stack::Stack;
use block_memory::{Memory, Val};
use int_ops::Cause;
use ir_steps::{Reply, Stepped};
use ir_syntax::{Inst, Program, Sym, Term};
use sqlite_items::Items as List;
use std::alloc::Global;

/// Runs an instruction of the innermost call.
fn run_inst(
    alloc: Global,
    p: &Program,
    table: &[List<List<usize>>],
    stack: &mut Stack,
    memory: &mut Memory,
    inst: &Inst,
    reply: Option<&Reply>,
) -> Result<Stepped, Halt>
    requires place { stack.old.top.place + 1 < 2 ^ 64 }
    requires table { table.now ≡ numbering.table_of p.now.modules }
    requires narrow { IsNarrowInst inst.now }
    requires meant { IsMeant (steps.inst_step p.now (point_of p.now stack.old memory.old) (option_copied reply) inst.now) }
    ensures { IsStepped p.now result stack.new memory.new memory.old (steps.inst_step p.now (point_of p.now stack.old memory.old) (option_copied reply.entry) inst.now) }
{
    match inst {
        Inst::Bin { .. } => read(p, stack, memory, inst),
        Inst::Icmp { .. } => read(p, stack, memory, inst),
        Inst::Select { .. } => read(p, stack, memory, inst),
        Inst::Cast { .. } => read(p, stack, memory, inst),
        Inst::Alloca { ty, count, .. } => allocate(alloc, p, stack, memory, ty, *count),
        Inst::Load { .. } => read(p, stack, memory, inst),
        Inst::Store {
            ty,
            value,
            at,
            align,
        } => store(p, stack, memory, *ty, value, at, *align),
        Inst::Gep { .. } => read(p, stack, memory, inst),
        Inst::Call {
            fn_ty,
            callee,
            args,
            ..
        } => call(
            alloc,
            p,
            table,
            stack,
            memory,
            fn_ty,
            callee,
            args.as_slice(),
            reply,
        ),
    }
}

/// Runs the terminator of a block of the innermost call.
fn run_term(
    alloc: Global,
    p: &Program,
    table: &[List<List<usize>>],
    stack: &mut Stack,
    memory: &mut Memory,
    values: &mut Vec<Val<Sym>>,
    term: &Term,
) -> Result<Stepped, Halt>
    requires table { table.now ≡ numbering.table_of p.now.modules }
    requires meant { IsMeant (steps.term_step p.now (point_of p.now stack.old memory.old) term.now) }
    ensures { IsStepped p.now result stack.new memory.new memory.old (steps.term_step p.now (point_of p.now stack.old memory.old) term.now) }
{
    match term {
        Term::RetVoid => give_back(alloc, p, stack, memory, None),
        Term::Ret(_, operand) => {
            let returned = value(p, &stack.top, operand);
            give_back(alloc, p, stack, memory, Some(returned))
        }
        Term::Br(to) => branch(p, table, stack, values, *to),
        Term::CondBr(cond, one, other) => {
            let cond = value(p, &stack.top, cond);
            let to = chosen(*one, *other, &cond)?;
            branch(p, table, stack, values, to)
        }
        Term::Switch {
            value: operand,
            default,
            cases,
            ..
        } => {
            let number = value(p, &stack.top, operand);
            let to = switched(*default, cases.as_slice(), &number)?;
            branch(p, table, stack, values, to)
        }
        Term::Unreachable => Err(Halt::Undefined(Cause::Unreachable)),
    }
}

/// One step of the innermost call, with the reply to the call at hand where there is one.
pub fn run(
    alloc: Global,
    p: &Program,
    table: &[List<List<usize>>],
    stack: &mut Stack,
    memory: &mut Memory,
    values: &mut Vec<Val<Sym>>,
    reply: Option<&Reply>,
) -> Result<Stepped, Halt>
    requires table { table.now ≡ numbering.table_of p.now.modules }
    requires stands { Stands p.now stack.old.top }
    requires meant { IsMeant (steps.frames_step p.now memory.old (option_copied reply) (stack_of p.now stack.old)) }
    ensures { IsStepped p.now result stack.new memory.new memory.old (steps.frames_step p.now memory.old (option_copied reply.entry) (stack_of p.now stack.old)) }
{
    let block = block_in(p, stack.top.func(), stack.top.block());
    match inst_at(block, stack.top.place()) {
        Some(inst) => run_inst(alloc, p, table, stack, memory, inst, reply),
        None => run_term(alloc, p, table, stack, memory, values, &block.term),
    }
}

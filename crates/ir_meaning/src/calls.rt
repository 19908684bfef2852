//! Calls.
ghost use Rattle.std.specs.Prelude.{◌≡◌, ◌+◌, ◌<◌, ◌^◌, IfOk, List, Option, None, map, replicate};
ghost use Rattle.std.specs.Option.{option_copied};
ghost use Rattle.block_memory.specs.Answers.{Gives, IsMeant, and_then, answered, or_stuck};
ghost use Rattle.block_memory.specs.Blocks.{MemoryData};
ghost use Rattle.ir_steps.specs.Calls as calls;
ghost use Rattle.ir_steps.specs.Operands as operands;
ghost use Rattle.ir_syntax.specs.declared.body.Arg.{Arg};
ghost use Rattle.ir_meaning.specs.Mirrors.Numbering as numbering;
ghost use Rattle.ir_meaning.specs.Mirrors.Outcomes.{IsStepped};
ghost use Rattle.ir_meaning.specs.Mirrors.Stacks.{point_of};
ghost use Rattle.ir_meaning.specs.Models.{frame_of};

use crate::builtins::builtin_call;
use crate::copying::intrinsic_call;
use crate::frame::Frame;
use crate::halt::Halt;
use crate::operands::value;
use crate::outside::outside_call;
use crate::places::{block_in, body_of, function_at};
use crate::showing::no_poison;
use crate::stack::Stack;
use crate::table::number_at;
use block_memory::{Memory, Name, Val};
use int_ops::Cause;
use ir_steps::{Reply, Stepped};
use ir_syntax::{Arg, Func, Operand, Program, Sym, Target};
use ir_types::{FnType, OutOfMemory};
use sqlite_items::Items as List;
use std::alloc::Global;

/// The symbol of the function whose address a value is.
fn callee_of(value: &Val<Sym>) -> Result<Sym, Cause>
    requires { IsMeant (calls.callee_of value.now) }
    ensures { calls.callee_of value.now ≡ answered result }
{
    match value {
        Val::Num(_) => unreachable!(),
        Val::Null => Err(Cause::BadCall),
        Val::At(of, offset) => match of {
            Name::Var(_) => Err(Cause::BadCall),
            Name::Func(sym) => {
                if *offset == 0 {
                    Ok(*sym)
                } else {
                    Err(Cause::BadCall)
                }
            }
            Name::Made(_) => Err(Cause::BadCall),
        },
        Val::Poison => Err(Cause::BadCall),
    }
}

/// The symbol of the function that is called.
fn called(p: &Program, frame: &Frame, callee: &Operand) -> Result<Sym, Cause>
    requires { IsMeant (and_then calls.callee_of (operands.value p.now (frame_of p.now frame.now) callee.now)) }
    ensures { and_then calls.callee_of (operands.value p.now (frame_of p.now frame.now) callee.now) ≡ answered result }
{
    let callee = value(p, frame, callee);
    callee_of(&callee)
}

/// The values of arguments.
fn values(
    alloc: Global,
    p: &Program,
    frame: &Frame,
    args: &[Arg],
) -> Result<Vec<Val<Sym>>, OutOfMemory>
    requires { IsMeant (operands.values p.now (frame_of p.now frame.now) (map (λ (a : Arg). a.value) args.now)) }
    ensures { IfOk result (λ values. operands.values p.now (frame_of p.now frame.now) (map (λ (a : Arg). a.value) args.now) ≡ Gives values.items) }
{
    let mut values = Vec::with_capacity(alloc, args.len())?;
    for arg in args {
        values.push(value(p, frame, &arg.value))?;
    }
    Ok(values)
}

/// So many slots that hold nothing.
fn empty_slots(alloc: Global, count: usize) -> Result<Vec<Option<Val<Sym>>>, OutOfMemory>
    ensures { IfOk result (λ slots. slots.items ≡ replicate count None) }
{
    let mut slots = Vec::with_capacity(alloc, count)?;
    for _i in 0..count {
        slots.push(None)?;
    }
    Ok(slots)
}

/// A call at the head of the first block, with no result set.
pub fn begin(
    alloc: Global,
    p: &Program,
    table: &[List<List<usize>>],
    symbol: Sym,
    args: Vec<Val<Sym>>,
) -> Result<Frame, OutOfMemory>
    requires table { table.now ≡ numbering.table_of p.now.modules }
    requires meant { IsMeant (and_then (λ body. calls.begins symbol body args.items) (or_stuck (calls.body_of p.now symbol))) }
    ensures { IfOk result (λ frame. and_then (λ body. calls.begins symbol body args.items) (or_stuck (calls.body_of p.now symbol)) ≡ Gives (frame_of p.now frame)) }
{
    let body = body_of(p, symbol);
    let first = block_in(p, symbol, 0);
    let behind = body.blocks.len();
    let count = number_at(table, symbol, behind);
    let results = empty_slots(alloc, count)?;
    let next = first.phis.len();
    let allocas = Vec::new(alloc);
    Ok(Frame {
        func: symbol,
        block: 0,
        place: 0,
        args,
        results,
        next,
        allocas,
    })
}

/// Calls a function of the program: the caller waits below it.
fn enter_function(
    alloc: Global,
    p: &Program,
    table: &[List<List<usize>>],
    stack: &mut Stack,
    symbol: Sym,
    args: Vec<Val<Sym>>,
) -> Result<Stepped, Halt>
    requires table { table.now ≡ numbering.table_of p.now.modules }
    requires meant { IsMeant (and_then (λ body. calls.begins symbol body args.items) (or_stuck (calls.body_of p.now symbol))) }
    ensures { (mem : MemoryData) → IsStepped p.now result stack.new mem mem (and_then (calls.enters_function (point_of p.now stack.old mem) symbol args.items) (or_stuck (calls.body_of p.now symbol))) }
{
    let frame = begin(alloc, p, table, symbol, args)?;
    stack.enter(frame)?;
    Ok(Stepped::Went)
}

/// Calls what a function stands for.
fn call_of(
    alloc: Global,
    p: &Program,
    table: &[List<List<usize>>],
    stack: &mut Stack,
    memory: &mut Memory,
    fn_ty: &FnType,
    func: &Func,
    target: Target,
    args: Vec<Val<Sym>>,
    reply: Option<&Reply>,
) -> Result<Stepped, Halt>
    requires place { stack.old.top.place + 1 < 2 ^ 64 }
    requires table { table.now ≡ numbering.table_of p.now.modules }
    requires meant { IsMeant (calls.call_of p.now (point_of p.now stack.old memory.old) fn_ty.now args.items (option_copied reply) func.now target) }
    ensures { IsStepped p.now result stack.new memory.new memory.old (calls.call_of p.now (point_of p.now stack.old memory.old) fn_ty.now args.items (option_copied reply.entry) func.now target) }
{
    match target {
        Target::Def(symbol) => enter_function(alloc, p, table, stack, symbol, args),
        Target::Outside => {
            no_poison(args.as_slice())?;
            let name = func.name.as_slice();
            outside_call(alloc, p, stack, memory, name, fn_ty, args.as_slice(), reply)
        }
        Target::Builtin(of) => {
            no_poison(args.as_slice())?;
            builtin_call(alloc, p, stack, memory, fn_ty, of, args.as_slice(), reply)
        }
        Target::Intrinsic(of) => intrinsic_call(p, stack, memory, of, args.as_slice()),
        Target::Nothing => unreachable!(),
    }
}

/// Calls a function whose type is the one that the call has written.
fn call_as(
    alloc: Global,
    p: &Program,
    table: &[List<List<usize>>],
    stack: &mut Stack,
    memory: &mut Memory,
    fn_ty: &FnType,
    symbol: Sym,
    args: Vec<Val<Sym>>,
    reply: Option<&Reply>,
) -> Result<Stepped, Halt>
    requires place { stack.old.top.place + 1 < 2 ^ 64 }
    requires table { table.now ≡ numbering.table_of p.now.modules }
    requires meant { IsMeant (and_then (calls.call_as p.now (point_of p.now stack.old memory.old) fn_ty.now args.items (option_copied reply) symbol) (or_stuck (calls.function_at p.now symbol))) }
    ensures { IsStepped p.now result stack.new memory.new memory.old (and_then (calls.call_as p.now (point_of p.now stack.old memory.old) fn_ty.now args.items (option_copied reply.entry) symbol) (or_stuck (calls.function_at p.now symbol))) }
{
    let func = function_at(p, symbol);
    if !func.has_type(fn_ty) {
        return Err(Halt::Undefined(Cause::CallType));
    }
    call_of(
        alloc,
        p,
        table,
        stack,
        memory,
        fn_ty,
        func,
        *p.target(symbol),
        args,
        reply,
    )
}

/// A call instruction.
pub fn call(
    alloc: Global,
    p: &Program,
    table: &[List<List<usize>>],
    stack: &mut Stack,
    memory: &mut Memory,
    fn_ty: &FnType,
    callee: &Operand,
    args: &[Arg],
    reply: Option<&Reply>,
) -> Result<Stepped, Halt>
    requires place { stack.old.top.place + 1 < 2 ^ 64 }
    requires table { table.now ≡ numbering.table_of p.now.modules }
    requires meant { IsMeant (calls.call p.now (point_of p.now stack.old memory.old) fn_ty.now callee.now args.now (option_copied reply)) }
    ensures { IsStepped p.now result stack.new memory.new memory.old (calls.call p.now (point_of p.now stack.old memory.old) fn_ty.now callee.now args.now (option_copied reply.entry)) }
{
    let symbol = called(p, &stack.top, callee)?;
    let values = values(alloc, p, &stack.top, args)?;
    call_as(alloc, p, table, stack, memory, fn_ty, symbol, values, reply)
}

//! The functions that every program may call without defining them.
ghost use Rattle.std.specs.Prelude.{◌≡◌, ◌+◌, ◌<◌, ◌^◌, ◌∷◌, []};
ghost use Rattle.std.specs.Option.{option_copied};
ghost use Rattle.ir_syntax.specs.Builtins.{builtin_name};
ghost use Rattle.block_memory.specs.declared.value.Val.TheVariants as val;
ghost use Rattle.block_memory.specs.Answers.{Gives, IsMeant};
ghost use Rattle.ir_steps.specs.Builtins as builtins;
ghost use Rattle.ir_steps.specs.Results.{state};
ghost use Rattle.ir_steps.specs.States.{Point};
ghost use Rattle.ir_meaning.specs.Mirrors.Outcomes.{IsStepped};
ghost use Rattle.ir_meaning.specs.Mirrors.Stacks.{point_of};
ghost use Rattle.ir_meaning.specs.Mirrors.Typing.{IsNumber};

use crate::halt::Halt;
use crate::showing::wanted;
use crate::stack::Stack;
use block_memory::{Memory, Name, Val};
use int_ops::Cause;
use ir_steps::{Reply, Stepped};
use ir_syntax::{Builtin, Program, Sym};
use ir_types::FnType;
use std::alloc::Global;

/// Makes a block of so many bytes where it is granted and below 2^31, and else gives null.
#[tactic(auto, using(crate::proofs::Passing::slot_is_there, crate::proofs::Passing::result_is_set))]
fn grant(
    alloc: Global,
    p: &Program,
    stack: &mut Stack,
    memory: &mut Memory,
    size: u64,
    zeroed: bool,
    reply: &Reply,
) -> Result<Stepped, Halt>
    requires place { stack.old.top.place + 1 < 2 ^ 64 }
    requires meant { IsMeant (builtins.grant (point_of p.now stack.old memory.old) size zeroed reply.now) }
    ensures { IsStepped p.now result stack.new memory.new memory.old (builtins.grant (point_of p.now stack.old memory.old) size zeroed reply.now) }
{
    match reply {
        Reply::Grant(granting) => {
            if *granting && size < 2147483648 {
                let number = memory.alloc(alloc, size as u32, true, zeroed)?;
                stack.top.pass_with(Val::At(Name::Made(number), 0));
            } else {
                stack.top.pass_with(Val::Null);
            }
            Ok(Stepped::Went)
        }
        Reply::Give { .. } => Err(Halt::Undefined(Cause::BadReply)),
    }
}

/// Asks for so many bytes, or takes the reply.
fn ask(
    alloc: Global,
    p: &Program,
    stack: &mut Stack,
    memory: &mut Memory,
    fn_ty: &FnType,
    of: Builtin,
    args: &[Val<Sym>],
    size: u64,
    zeroed: bool,
    reply: Option<&Reply>,
) -> Result<Stepped, Halt>
    requires place { stack.old.top.place + 1 < 2 ^ 64 }
    requires meant { IsMeant (builtins.asks p.now (point_of p.now stack.old memory.old) fn_ty.now of args.now size zeroed (option_copied reply)) }
    ensures { IsStepped p.now result stack.new memory.new memory.old (builtins.asks p.now (point_of p.now stack.old memory.old) fn_ty.now of args.now size zeroed (option_copied reply.entry)) }
{
    match reply {
        Some(reply) => grant(alloc, p, stack, memory, size, zeroed, reply),
        None => {
            let wanted = wanted(alloc, p, memory, of.name(), fn_ty, args)?;
            Ok(Stepped::Wants(wanted))
        }
    }
}

/// The number that an argument is.
fn number_of(value: &Val<Sym>) -> u64
    requires { IsNumber value.now }
    ensures { value.now ≡ val.Num result }
{
    match value {
        Val::Num(n) => *n,
        Val::Null => unreachable!(),
        Val::At(_, _) => unreachable!(),
        Val::Poison => unreachable!(),
    }
}

fn malloc_call(
    alloc: Global,
    p: &Program,
    stack: &mut Stack,
    memory: &mut Memory,
    fn_ty: &FnType,
    args: &[Val<Sym>],
    reply: Option<&Reply>,
) -> Result<Stepped, Halt>
    requires place { stack.old.top.place + 1 < 2 ^ 64 }
    requires meant { IsMeant (builtins.malloc_call p.now (point_of p.now stack.old memory.old) fn_ty.now (option_copied reply) args.now) }
    ensures { IsStepped p.now result stack.new memory.new memory.old (builtins.malloc_call p.now (point_of p.now stack.old memory.old) fn_ty.now (option_copied reply.entry) args.now) }
{
    let [size] = args else { unreachable!() };
    let bytes = number_of(size);
    let of = Builtin::Malloc;
    ask(
        alloc, p, stack, memory, fn_ty, of, args, bytes, false, reply,
    )
}

/// The size is the product as a whole number. Where that is 2^64 or more, the greatest number does as well: it is no size
/// of a block either.
fn calloc_call(
    alloc: Global,
    p: &Program,
    stack: &mut Stack,
    memory: &mut Memory,
    fn_ty: &FnType,
    args: &[Val<Sym>],
    reply: Option<&Reply>,
) -> Result<Stepped, Halt>
    requires place { stack.old.top.place + 1 < 2 ^ 64 }
    requires meant { IsMeant (builtins.calloc_call p.now (point_of p.now stack.old memory.old) fn_ty.now (option_copied reply) args.now) }
    ensures { IsStepped p.now result stack.new memory.new memory.old (builtins.calloc_call p.now (point_of p.now stack.old memory.old) fn_ty.now (option_copied reply.entry) args.now) }
{
    let [count, each] = args else { unreachable!() };
    let bytes = number_of(count).saturating_mul(number_of(each));
    let of = Builtin::Calloc;
    ask(alloc, p, stack, memory, fn_ty, of, args, bytes, true, reply)
}

fn free_call(
    p: &Program,
    stack: &mut Stack,
    memory: &mut Memory,
    args: &[Val<Sym>],
) -> Result<Stepped, Halt>
    requires place { stack.old.top.place + 1 < 2 ^ 64 }
    requires meant { IsMeant (builtins.free_call (point_of p.now stack.old memory.old) args.now) }
    ensures { IsStepped p.now result stack.new memory.new memory.old (builtins.free_call (point_of p.now stack.old memory.old) args.now) }
{
    let [at] = args else { unreachable!() };
    memory.free(at)?;
    stack.top.pass();
    Ok(Stepped::Went)
}

/// The status that `exit` is called with.
fn status_of(args: &[Val<Sym>]) -> u32
    requires { (at : Point) → IsMeant (builtins.exit_call at args.now) }
    ensures { (at : Point) → builtins.exit_call at args.now ≡ Gives (Stepped.Exited result, state [] at.memory) }
{
    match args {
        [] => unreachable!(),
        [status, ..] => match status {
            Val::Num(n) => *n as u32,
            Val::Null => unreachable!(),
            Val::At(_, _) => unreachable!(),
            Val::Poison => unreachable!(),
        },
    }
}

/// Calls a built-in function, with arguments that aren't poison.
pub fn builtin_call(
    alloc: Global,
    p: &Program,
    stack: &mut Stack,
    memory: &mut Memory,
    fn_ty: &FnType,
    of: Builtin,
    args: &[Val<Sym>],
    reply: Option<&Reply>,
) -> Result<Stepped, Halt>
    requires place { stack.old.top.place + 1 < 2 ^ 64 }
    requires meant { IsMeant (builtins.builtin_call p.now (point_of p.now stack.old memory.old) fn_ty.now (option_copied reply) args.now of) }
    ensures { IsStepped p.now result stack.new memory.new memory.old (builtins.builtin_call p.now (point_of p.now stack.old memory.old) fn_ty.now (option_copied reply.entry) args.now of) }
{
    match of {
        Builtin::Malloc => malloc_call(alloc, p, stack, memory, fn_ty, args, reply),
        Builtin::Calloc => calloc_call(alloc, p, stack, memory, fn_ty, args, reply),
        Builtin::Free => free_call(p, stack, memory, args),
        Builtin::Exit => Ok(Stepped::Exited(status_of(args))),
        Builtin::Abort => Ok(Stepped::Aborted),
    }
}

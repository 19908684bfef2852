//! The intrinsics that copy and fill memory.
ghost use Rattle.std.specs.Prelude.{◌≡◌, ◌+◌, ◌<◌, ◌^◌};
ghost use Rattle.block_memory.specs.Answers.{IsMeant, answered};
ghost use Rattle.ir_steps.specs.Copying as copying;
ghost use Rattle.ir_meaning.specs.Mirrors.Outcomes.{IsStepped};
ghost use Rattle.ir_meaning.specs.Mirrors.Stacks.{point_of};

use crate::halt::Halt;
use crate::stack::Stack;
use block_memory::{Memory, Val};
use int_ops::Cause;
use ir_steps::Stepped;
use ir_syntax::{Intrinsic, Program, Sym};

/// The number of bytes that a length is.
fn length_of(value: &Val<Sym>) -> Result<u64, Cause>
    requires { IsMeant (copying.length_of value.now) }
    ensures { copying.length_of value.now ≡ answered result }
{
    match value {
        Val::Num(n) => Ok(*n),
        Val::Null => unreachable!(),
        Val::At(_, _) => unreachable!(),
        Val::Poison => Err(Cause::PoisonLength),
    }
}

/// Copies bytes, and goes on behind the call.
fn copies(
    p: &Program,
    stack: &mut Stack,
    memory: &mut Memory,
    may_overlap: bool,
    args: &[Val<Sym>],
) -> Result<Stepped, Halt>
    requires place { stack.old.top.place + 1 < 2 ^ 64 }
    requires meant { IsMeant (copying.copies (point_of p.now stack.old memory.old) may_overlap args.now) }
    ensures { IsStepped p.now result stack.new memory.new memory.old (copying.copies (point_of p.now stack.old memory.old) may_overlap args.now) }
{
    let [to, from, len, _volatile] = args else {
        unreachable!()
    };
    let len = length_of(len)?;
    memory.copy_bytes(to, from, len, may_overlap)?;
    stack.top.pass();
    Ok(Stepped::Went)
}

/// Fills bytes, and goes on behind the call.
fn fills(
    p: &Program,
    stack: &mut Stack,
    memory: &mut Memory,
    args: &[Val<Sym>],
) -> Result<Stepped, Halt>
    requires place { stack.old.top.place + 1 < 2 ^ 64 }
    requires meant { IsMeant (copying.fills (point_of p.now stack.old memory.old) args.now) }
    ensures { IsStepped p.now result stack.new memory.new memory.old (copying.fills (point_of p.now stack.old memory.old) args.now) }
{
    let [to, byte, len, _volatile] = args else {
        unreachable!()
    };
    let len = length_of(len)?;
    memory.fill(to, byte, len)?;
    stack.top.pass();
    Ok(Stepped::Went)
}

/// Calls an intrinsic.
pub fn intrinsic_call(
    p: &Program,
    stack: &mut Stack,
    memory: &mut Memory,
    of: Intrinsic,
    args: &[Val<Sym>],
) -> Result<Stepped, Halt>
    requires place { stack.old.top.place + 1 < 2 ^ 64 }
    requires meant { IsMeant (copying.intrinsic_call (point_of p.now stack.old memory.old) args.now of) }
    ensures { IsStepped p.now result stack.new memory.new memory.old (copying.intrinsic_call (point_of p.now stack.old memory.old) args.now of) }
{
    match of {
        Intrinsic::Memcpy => copies(p, stack, memory, false, args),
        Intrinsic::Memmove => copies(p, stack, memory, true, args),
        Intrinsic::Memset => fills(p, stack, memory, args),
    }
}

//! Calls of functions outside, and what they may reply.
ghost use Rattle.std.specs.Prelude.{◌≡◌, ◌+◌, ◌<◌, ◌^◌, ◌+ℤ◌, All, ℕ, List, OnErr, Option, Some};
ghost use Rattle.std.specs.Option.{option_copied};
ghost use Rattle.block_memory.specs.Answers.{IsMeant, answered, changed};
ghost use Rattle.block_memory.specs.Blocks.{IsKnown};
ghost use Rattle.ir_steps.specs.Calls as calls;
ghost use Rattle.ir_steps.specs.Pointers.{wrapped};
ghost use Rattle.ir_steps.specs.Replies as replies;
ghost use Rattle.ir_meaning.specs.Mirrors.Outcomes.{IsStepped};
ghost use Rattle.ir_meaning.specs.Mirrors.Stacks.{point_of};

use crate::halt::Halt;
use crate::operands::name_again;
use crate::showing::shown_all;
use crate::stack::Stack;
use crate::writes::write_all;
use block_memory::{Memory, Val};
use int_ops::Cause;
use ir_steps::{Reply, ReplyVal, Stepped, Wanted};
use ir_syntax::{Program, Sym};
use ir_types::{Bytes, Copied, FnType, Scalar};
use std::alloc::Global;

/// A number of the type.
fn number_for(ty: Scalar, n: u64) -> Result<Option<Val<Sym>>, Cause>
    ensures { replies.number_for ty n ≡ answered result }
{
    if ty.holds(n) {
        Ok(Some(Val::Num(n)))
    } else {
        Err(Cause::BadReply)
    }
}

/// The offset so many bytes further, as a signed 64-bit number that wraps.
pub fn wrapped(offset: i64, by: i64) -> i64
    ensures { result ≡ wrapped (offset +ℤ by) }
{
    let sum = offset.cast_unsigned().wrapping_add(by.cast_unsigned());
    Scalar::I64.signed(sum)
}

/// An argument that is an address, so many bytes further.
fn moved_argument(by: i64, arg: Option<&Val<Sym>>) -> Result<Option<Val<Sym>>, Cause>
    ensures { replies.moved_argument by (option_copied arg.entry) ≡ answered result }
{
    match arg {
        None => Err(Cause::BadReply),
        Some(value) => match value {
            Val::Num(_) => Err(Cause::BadReply),
            Val::Null => Err(Cause::BadReply),
            Val::At(of, offset) => Ok(Some(Val::At(name_again(of), wrapped(*offset, by)))),
            Val::Poison => Err(Cause::BadReply),
        },
    }
}

/// What a reply to a function that returns a value of this type returns.
fn typed_reply(args: &[Val<Sym>], ty: Scalar, value: ReplyVal) -> Result<Option<Val<Sym>>, Cause>
    ensures { replies.replied args.now (Some ty) value ≡ answered result }
{
    match value {
        ReplyVal::Void => Err(Cause::BadReply),
        ReplyVal::Num(n) => number_for(ty, n),
        ReplyVal::Null => match ty {
            Scalar::I1 => Err(Cause::BadReply),
            Scalar::I8 => Err(Cause::BadReply),
            Scalar::I16 => Err(Cause::BadReply),
            Scalar::I32 => Err(Cause::BadReply),
            Scalar::I64 => Err(Cause::BadReply),
            Scalar::Ptr => Ok(Some(Val::Null)),
        },
        ReplyVal::Arg(k, by) => match ty {
            Scalar::I1 => Err(Cause::BadReply),
            Scalar::I8 => Err(Cause::BadReply),
            Scalar::I16 => Err(Cause::BadReply),
            Scalar::I32 => Err(Cause::BadReply),
            Scalar::I64 => Err(Cause::BadReply),
            Scalar::Ptr => moved_argument(by, args.get(k)),
        },
    }
}

/// What a reply returns.
fn replied(
    args: &[Val<Sym>],
    returns: Option<Scalar>,
    value: ReplyVal,
) -> Result<Option<Val<Sym>>, Cause>
    ensures { replies.replied args.now returns value ≡ answered result }
{
    match returns {
        Some(ty) => typed_reply(args, ty, value),
        None => match value {
            ReplyVal::Void => Ok(None),
            ReplyVal::Num(_) => Err(Cause::BadReply),
            ReplyVal::Null => Err(Cause::BadReply),
            ReplyVal::Arg(_, _) => Err(Cause::BadReply),
        },
    }
}

/// Takes the reply of a function outside.
#[tactic(auto, using(crate::proofs::Passing::slot_is_there, crate::proofs::Passing::result_is_set))]
fn give(
    p: &Program,
    stack: &mut Stack,
    memory: &mut Memory,
    fn_ty: &FnType,
    args: &[Val<Sym>],
    reply: &Reply,
) -> Result<Stepped, Halt>
    requires place { stack.old.top.place + 1 < 2 ^ 64 }
    requires known { All (IsKnown memory.old) args.now }
    requires meant { IsMeant (calls.give (point_of p.now stack.old memory.old) fn_ty.now args.now reply.now) }
    ensures { IsStepped p.now result stack.new memory.new memory.old (calls.give (point_of p.now stack.old memory.old) fn_ty.now args.now reply.now) }
{
    match reply {
        Reply::Grant(_) => Err(Halt::Undefined(Cause::BadReply)),
        Reply::Give { value, writes } => {
            let returned = replied(args, fn_ty.returns, *value)?;
            write_all(memory, args, writes.as_slice())?;
            match returned {
                Some(value) => stack.top.pass_with(value),
                None => stack.top.pass(),
            }
            Ok(Stepped::Went)
        }
    }
}

/// Calls a function outside, with arguments that aren't poison.
pub fn outside_call(
    alloc: Global,
    p: &Program,
    stack: &mut Stack,
    memory: &mut Memory,
    name: &[u8],
    fn_ty: &FnType,
    args: &[Val<Sym>],
    reply: Option<&Reply>,
) -> Result<Stepped, Halt>
    requires place { stack.old.top.place + 1 < 2 ^ 64 }
    requires meant { IsMeant (calls.outside_call p.now (point_of p.now stack.old memory.old) name.now fn_ty.now args.now (option_copied reply)) }
    ensures { IsStepped p.now result stack.new memory.new memory.old (calls.outside_call p.now (point_of p.now stack.old memory.old) name.now fn_ty.now args.now (option_copied reply.entry)) }
{
    let shown = shown_all(alloc, p, memory, args)?;
    match reply {
        Some(reply) => give(p, stack, memory, fn_ty, args, reply),
        None => Ok(Stepped::Wants(Wanted {
            name: Bytes::from_slice(alloc, name)?,
            fn_ty: fn_ty.copied(alloc)?,
            args: shown,
        })),
    }
}

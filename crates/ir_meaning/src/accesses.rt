//! Instructions that change memory.
ghost use Rattle.std.specs.Prelude.{◌≡◌, ◌+◌, ◌*◌, ◌<◌, ◌^◌};
ghost use Rattle.ir_types.specs.Layout.{size};
ghost use Rattle.ir_syntax.specs.Typed.{IsNarrow};
ghost use Rattle.block_memory.specs.Answers.{IsMeant, and_then};
ghost use Rattle.block_memory.specs.Stores as stores;
ghost use Rattle.ir_steps.specs.Operands as operands;
ghost use Rattle.ir_steps.specs.Reading as reading;
ghost use Rattle.ir_steps.specs.Results.{with_memory};
ghost use Rattle.ir_steps.specs.Steps as steps;
ghost use Rattle.ir_meaning.specs.Models.{frame_of};
ghost use Rattle.ir_meaning.specs.Mirrors.Outcomes.{IsStepped};
ghost use Rattle.ir_meaning.specs.Mirrors.Stacks.{point_of};

use crate::halt::Halt;
use crate::operands::value;
use crate::reading::align_of;
use crate::stack::Stack;
use block_memory::{Memory, Name, Val};
use ir_steps::Stepped;
use ir_syntax::{Operand, Program};
use ir_types::{Scalar, Ty, size_of};
use std::alloc::Global;

/// How many bytes so many values of a type take.
fn bytes_of(ty: &Ty, count: u64) -> u32
    requires narrow { IsNarrow ty.now }
    requires few { size ty.now * count < 2 ^ 31 }
    ensures { result ≡ size ty.now * count }
{
    match size_of(ty) {
        Ok(size) => (u64::from(size) * count) as u32,
        Err(_) => unreachable!(),
    }
}

/// Makes a block, which ends with its call.
#[tactic(auto, using(crate::proofs::Passing::slot_is_there, crate::proofs::Passing::result_is_set))]
pub fn allocate(
    alloc: Global,
    p: &Program,
    stack: &mut Stack,
    memory: &mut Memory,
    ty: &Ty,
    count: u64,
) -> Result<Stepped, Halt>
    requires place { stack.old.top.place + 1 < 2 ^ 64 }
    requires narrow { IsNarrow ty.now }
    requires few { size ty.now * count < 2 ^ 31 }
    requires meant { IsMeant (steps.allocates (point_of p.now stack.old memory.old) (size ty.now * count)) }
    ensures { IsStepped p.now result stack.new memory.new memory.old (steps.allocates (point_of p.now stack.old memory.old) (size ty.now * count)) }
{
    let number = memory.alloc(alloc, bytes_of(ty, count), false, false)?;
    stack.top.own(number)?;
    stack.top.pass_with(Val::At(Name::Made(number), 0));
    Ok(Stepped::Went)
}

/// Stores a value.
pub fn store(
    p: &Program,
    stack: &mut Stack,
    memory: &mut Memory,
    ty: Scalar,
    a: &Operand,
    to: &Operand,
    align: Option<u8>,
) -> Result<Stepped, Halt>
    requires place { stack.old.top.place + 1 < 2 ^ 64 }
    requires meant { IsMeant (and_then (λ x. and_then (λ place. and_then (with_memory (point_of p.now stack.old memory.old)) (stores.store memory.old ty (reading.align_of ty align) x place)) (operands.value p.now (frame_of p.now stack.old.top) to.now)) (operands.value p.now (frame_of p.now stack.old.top) a.now)) }
    ensures { IsStepped p.now result stack.new memory.new memory.old (and_then (λ x. and_then (λ place. and_then (with_memory (point_of p.now stack.old memory.old)) (stores.store memory.old ty (reading.align_of ty align) x place)) (operands.value p.now (frame_of p.now stack.old.top) to.now)) (operands.value p.now (frame_of p.now stack.old.top) a.now)) }
{
    let x = value(p, &stack.top, a);
    let place = value(p, &stack.top, to);
    memory.store(ty, align_of(ty, align), &x, &place)?;
    stack.top.pass();
    Ok(Stepped::Went)
}

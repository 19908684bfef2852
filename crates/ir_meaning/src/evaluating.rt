//! Instructions that only read.
ghost use Rattle.std.specs.Prelude.{◌≡◌, ◌+◌, ◌<◌, ◌^◌};
ghost use Rattle.block_memory.specs.Answers.{IsMeant, and_then, answered};
ghost use Rattle.block_memory.specs.Loads as loads;
ghost use Rattle.ir_steps.specs.Operands as operands;
ghost use Rattle.ir_steps.specs.Reading as reading;
ghost use Rattle.ir_steps.specs.Results.{gives_result};
ghost use Rattle.ir_meaning.specs.Models.{frame_of};
ghost use Rattle.ir_meaning.specs.Mirrors.Outcomes.{IsStepped};
ghost use Rattle.ir_meaning.specs.Mirrors.Stacks.{point_of};
ghost use Rattle.ir_meaning.specs.Mirrors.Typing.{IsNarrowInst};
ghost use Rattle.ir_syntax.specs.Typed.{IsNarrow};

use crate::frame::Frame;
use crate::halt::Halt;
use crate::operands::value;
use crate::pointers::gep;
use crate::reading::{align_of, bin, cast, icmp, select};
use crate::stack::Stack;
use block_memory::{Memory, Val};
use int_ops::Cause;
use ir_steps::Stepped;
use ir_syntax::{Inst, Operand, Program, Sym};
use ir_types::{BinOp, CastOp, Flags, Pred, Scalar, Ty};

fn evaluate_bin(
    p: &Program,
    frame: &Frame,
    op: BinOp,
    flags: Flags,
    ty: Scalar,
    a: &Operand,
    b: &Operand,
) -> Result<Val<Sym>, Cause>
    requires { IsMeant (and_then (λ x. and_then (reading.bin op flags ty x) (operands.value p.now (frame_of p.now frame.now) b.now)) (operands.value p.now (frame_of p.now frame.now) a.now)) }
    ensures { and_then (λ x. and_then (reading.bin op flags ty x) (operands.value p.now (frame_of p.now frame.now) b.now)) (operands.value p.now (frame_of p.now frame.now) a.now) ≡ answered result }
{
    let x = value(p, frame, a);
    let y = value(p, frame, b);
    bin(op, flags, ty, &x, &y)
}

fn evaluate_icmp(
    p: &Program,
    frame: &Frame,
    memory: &Memory,
    pred: Pred,
    ty: Scalar,
    a: &Operand,
    b: &Operand,
) -> Result<Val<Sym>, Cause>
    requires { IsMeant (and_then (λ x. and_then (reading.icmp memory.now pred ty x) (operands.value p.now (frame_of p.now frame.now) b.now)) (operands.value p.now (frame_of p.now frame.now) a.now)) }
    ensures { and_then (λ x. and_then (reading.icmp memory.now pred ty x) (operands.value p.now (frame_of p.now frame.now) b.now)) (operands.value p.now (frame_of p.now frame.now) a.now) ≡ answered result }
{
    let x = value(p, frame, a);
    let y = value(p, frame, b);
    icmp(memory, pred, ty, &x, &y)
}

fn evaluate_select(p: &Program, frame: &Frame, cond: &Operand, a: &Operand, b: &Operand) -> Val<Sym>
    requires { IsMeant (and_then (reading.select p.now (frame_of p.now frame.now) a.now b.now) (operands.value p.now (frame_of p.now frame.now) cond.now)) }
    ensures { and_then (reading.select p.now (frame_of p.now frame.now) a.now b.now) (operands.value p.now (frame_of p.now frame.now) cond.now) ≡ answered (Ok result) }
{
    let cond = value(p, frame, cond);
    select(p, frame, a, b, &cond)
}

fn evaluate_cast(
    p: &Program,
    frame: &Frame,
    op: CastOp,
    nneg: bool,
    from: Scalar,
    to: Scalar,
    a: &Operand,
) -> Result<Val<Sym>, Cause>
    requires { IsMeant (and_then (reading.cast op nneg from to) (operands.value p.now (frame_of p.now frame.now) a.now)) }
    ensures { and_then (reading.cast op nneg from to) (operands.value p.now (frame_of p.now frame.now) a.now) ≡ answered result }
{
    let x = value(p, frame, a);
    cast(op, nneg, from, to, &x)
}

fn evaluate_load(
    p: &Program,
    frame: &Frame,
    memory: &Memory,
    ty: Scalar,
    at: &Operand,
    align: Option<u8>,
) -> Result<Val<Sym>, Cause>
    requires { IsMeant (and_then (loads.load memory.now ty (reading.align_of ty align)) (operands.value p.now (frame_of p.now frame.now) at.now)) }
    ensures { and_then (loads.load memory.now ty (reading.align_of ty align)) (operands.value p.now (frame_of p.now frame.now) at.now) ≡ answered result }
{
    let place = value(p, frame, at);
    memory.load(ty, align_of(ty, align), &place)
}

fn evaluate_gep(
    p: &Program,
    frame: &Frame,
    memory: &Memory,
    inbounds: bool,
    ty: &Ty,
    base: &Operand,
    indices: &[(Scalar, Operand)],
) -> Val<Sym>
    requires narrow { IsNarrow ty.now }
    requires meant { IsMeant (and_then (reading.gep p.now (frame_of p.now frame.now) memory.now inbounds ty.now indices.now) (operands.value p.now (frame_of p.now frame.now) base.now)) }
    ensures { and_then (reading.gep p.now (frame_of p.now frame.now) memory.now inbounds ty.now indices.now) (operands.value p.now (frame_of p.now frame.now) base.now) ≡ answered (Ok result) }
{
    let base = value(p, frame, base);
    gep(p, frame, memory, inbounds, ty, indices, &base)
}

/// The value of an instruction that only reads.
fn evaluate(p: &Program, frame: &Frame, memory: &Memory, inst: &Inst) -> Result<Val<Sym>, Cause>
    requires narrow { IsNarrowInst inst.now }
    requires meant { IsMeant (reading.evaluated p.now (frame_of p.now frame.now) memory.now inst.now) }
    ensures { reading.evaluated p.now (frame_of p.now frame.now) memory.now inst.now ≡ answered result }
{
    match inst {
        Inst::Bin {
            op,
            flags,
            ty,
            a,
            b,
        } => evaluate_bin(p, frame, *op, *flags, *ty, a, b),
        Inst::Icmp { pred, ty, a, b } => evaluate_icmp(p, frame, memory, *pred, *ty, a, b),
        Inst::Select { cond, a, b, .. } => Ok(evaluate_select(p, frame, cond, a, b)),
        Inst::Cast {
            op,
            nneg,
            from,
            to,
            a,
        } => evaluate_cast(p, frame, *op, *nneg, *from, *to, a),
        Inst::Alloca { .. } => unreachable!(),
        Inst::Load { ty, at, align } => evaluate_load(p, frame, memory, *ty, at, *align),
        Inst::Store { .. } => unreachable!(),
        Inst::Gep {
            inbounds,
            ty,
            base,
            indices,
        } => Ok(evaluate_gep(p, frame, memory, *inbounds, ty, base, indices.as_slice())),
        Inst::Call { .. } => unreachable!(),
    }
}

/// Runs an instruction that only reads.
#[tactic(auto, using(crate::proofs::Passing::slot_is_there, crate::proofs::Passing::result_is_set))]
pub fn read(p: &Program, stack: &mut Stack, memory: &Memory, inst: &Inst) -> Result<Stepped, Halt>
    requires place { stack.old.top.place + 1 < 2 ^ 64 }
    requires narrow { IsNarrowInst inst.now }
    requires meant { IsMeant (and_then (gives_result (point_of p.now stack.old memory.now)) (reading.evaluated p.now (frame_of p.now stack.old.top) memory.now inst.now)) }
    ensures { IsStepped p.now result stack.new memory.now memory.now (and_then (gives_result (point_of p.now stack.old memory.now)) (reading.evaluated p.now (frame_of p.now stack.old.top) memory.now inst.now)) }
{
    let value = evaluate(p, &stack.top, memory, inst)?;
    stack.top.pass_with(value);
    Ok(Stepped::Went)
}

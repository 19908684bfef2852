//! The values of instructions that only read.
ghost use Rattle.std.specs.Prelude.{◌≡◌, ◌∷◌, List, [], Option, Some};
ghost use Rattle.int_ops.specs.PoisonOperands as poison;
ghost use Rattle.block_memory.specs.Answers.{Gives, IsMeant, and_then, answered};
ghost use Rattle.block_memory.specs.Loads as loads;
ghost use Rattle.ir_steps.specs.Operands as operands;
ghost use Rattle.ir_steps.specs.Reading as reading;
ghost use Rattle.ir_meaning.specs.Models.{frame_of};

use crate::frame::Frame;
use crate::operands::value;
use block_memory::{Memory, Val};
use int_ops::{Cause, Outcome};
use ir_syntax::{Operand, Program, Sym};
use ir_types::{BinOp, CastOp, Flags, Pred, Scalar};

/// The number of an integer's value, and none of poison.
fn number(value: &Val<Sym>) -> Option<u64>
    requires { IsMeant (reading.number value.now) }
    ensures { reading.number value.now ≡ Gives result }
{
    match value {
        Val::Num(n) => Some(*n),
        Val::Null => unreachable!(),
        Val::At(_, _) => unreachable!(),
        Val::Poison => None,
    }
}

fn of_outcome(outcome: Outcome) -> Result<Val<Sym>, Cause>
    ensures { reading.of_outcome outcome ≡ answered result }
{
    match outcome {
        Outcome::Num(n) => Ok(Val::Num(n)),
        Outcome::Poison => Ok(Val::Poison),
        Outcome::Undefined(cause) => Err(cause),
    }
}

/// Whether the operation is a division, or leaves the remainder of one.
fn divides(op: BinOp) -> bool
    ensures { result ≡ poison.divides op }
{
    match op {
        BinOp::Udiv => true,
        BinOp::Sdiv => true,
        BinOp::Urem => true,
        BinOp::Srem => true,
        BinOp::Add | BinOp::Sub | BinOp::Mul | BinOp::Shl | BinOp::Lshr => false,
        BinOp::Ashr | BinOp::And | BinOp::Or | BinOp::Xor => false,
    }
}

/// What an operation makes of two values of its type.
fn bin_of_values(op: BinOp, flags: Flags, ty: Scalar, a: Option<u64>, b: Option<u64>) -> Outcome
    ensures { result ≡ poison.bin_of_values op flags ty a b }
{
    match b {
        None => {
            if divides(op) {
                Outcome::Undefined(Cause::DivideByZero)
            } else {
                Outcome::Poison
            }
        }
        Some(y) => match a {
            None => {
                if divides(op) && y == 0 {
                    Outcome::Undefined(Cause::DivideByZero)
                } else {
                    Outcome::Poison
                }
            }
            Some(x) => int_ops::bin(op, flags, ty, x, y),
        },
    }
}

/// The value of a binary operation.
#[tactic(auto, using(crate::proofs::Meaning::first_number, crate::proofs::Meaning::second_number, crate::proofs::Meaning::bin_is))]
pub fn bin(
    op: BinOp,
    flags: Flags,
    ty: Scalar,
    a: &Val<Sym>,
    b: &Val<Sym>,
) -> Result<Val<Sym>, Cause>
    requires { IsMeant (reading.bin op flags ty a.now b.now) }
    ensures { reading.bin op flags ty a.now b.now ≡ answered result }
{
    let x = number(a);
    let y = number(b);
    of_outcome(bin_of_values(op, flags, ty, x, y))
}

/// The value of a cast.
pub fn cast(
    op: CastOp,
    nneg: bool,
    from: Scalar,
    to: Scalar,
    a: &Val<Sym>,
) -> Result<Val<Sym>, Cause>
    requires { IsMeant (reading.cast op nneg from to a.now) }
    ensures { reading.cast op nneg from to a.now ≡ answered result }
{
    match number(a) {
        None => Ok(Val::Poison),
        Some(x) => of_outcome(int_ops::cast(op, nneg, from, to, x)),
    }
}

/// Whether a predicate holds of two numbers, as an i1; poison where one is poison.
fn icmp_of_values(pred: Pred, ty: Scalar, a: Option<u64>, b: Option<u64>) -> Outcome
    ensures { result ≡ poison.icmp_of_values pred ty a b }
{
    match a {
        None => Outcome::Poison,
        Some(x) => match b {
            None => Outcome::Poison,
            Some(y) => {
                if int_ops::icmp(pred, ty, x, y) {
                    Outcome::Num(1)
                } else {
                    Outcome::Num(0)
                }
            }
        },
    }
}

fn icmp_numbers(pred: Pred, ty: Scalar, a: &Val<Sym>, b: &Val<Sym>) -> Result<Val<Sym>, Cause>
    requires { IsMeant (reading.icmp_numbers pred ty a.now b.now) }
    ensures { reading.icmp_numbers pred ty a.now b.now ≡ answered result }
{
    let x = number(a);
    let y = number(b);
    of_outcome(icmp_of_values(pred, ty, x, y))
}

/// The value of a comparison.
pub fn icmp(
    memory: &Memory,
    pred: Pred,
    ty: Scalar,
    a: &Val<Sym>,
    b: &Val<Sym>,
) -> Result<Val<Sym>, Cause>
    requires { IsMeant (reading.icmp memory.now pred ty a.now b.now) }
    ensures { reading.icmp memory.now pred ty a.now b.now ≡ answered result }
{
    match ty {
        Scalar::I1 => icmp_numbers(pred, ty, a, b),
        Scalar::I8 => icmp_numbers(pred, ty, a, b),
        Scalar::I16 => icmp_numbers(pred, ty, a, b),
        Scalar::I32 => icmp_numbers(pred, ty, a, b),
        Scalar::I64 => icmp_numbers(pred, ty, a, b),
        Scalar::Ptr => memory.compare(pred, a, b),
    }
}

/// The operand's value that a condition selects.
pub fn select(p: &Program, frame: &Frame, a: &Operand, b: &Operand, cond: &Val<Sym>) -> Val<Sym>
    requires { IsMeant (reading.select p.now (frame_of p.now frame.now) a.now b.now cond.now) }
    ensures { reading.select p.now (frame_of p.now frame.now) a.now b.now cond.now ≡ Gives result }
{
    match cond {
        Val::Num(n) => value(p, frame, if *n == 0 { b } else { a }),
        Val::Null => unreachable!(),
        Val::At(_, _) => unreachable!(),
        Val::Poison => Val::Poison,
    }
}

fn natural_align(ty: Scalar) -> u8
    ensures { result ≡ reading.natural_align ty }
{
    match ty {
        Scalar::I1 => 0,
        Scalar::I8 => 0,
        Scalar::I16 => 1,
        Scalar::I32 => 2,
        Scalar::I64 => 3,
        Scalar::Ptr => 3,
    }
}

/// The alignment that is written, else the type's, as an exponent of two.
pub fn align_of(ty: Scalar, align: Option<u8>) -> u8
    ensures { result ≡ reading.align_of ty align }
{
    match align {
        Some(align) => align,
        None => natural_align(ty),
    }
}

//! What is known of the results of a block.
ghost use Rattle.std.specs.Prelude.{◌≡◌, IfOk};
ghost use Rattle.straight_plan.specs.Folding.{const_fact, fact_sum, known_fact, known_sum, operand_fact, operation_fact, said};
ghost use Rattle.straight_fold.specs.Facts.{facts_of};

use ir_syntax::{Const, Inst, Operand};
use ir_types::{BinOp, Known, List, OutOfMemory};
use std::alloc::Global;
use straight_plan::Fact;

fn known_fact(known: Known) -> Fact
    ensures { result ≡ known_fact known }
{
    match known {
        Known::Unknown => Fact::Varying,
        Known::Num(number) => Fact::One(Known::Num(number)),
        Known::Null => Fact::One(Known::Null),
    }
}

fn const_fact(constant: &Const) -> Fact
    ensures { result ≡ const_fact constant.now }
{
    match constant {
        Const::Int(number) => Fact::One(Known::Num(*number)),
        Const::Null => Fact::One(Known::Null),
        Const::Addr(_, _) => Fact::Varying,
        Const::Undef => Fact::Varying,
        Const::Poison => Fact::Varying,
        Const::Zero => Fact::Varying,
        Const::Text(_) => Fact::Varying,
        Const::Many(_) => Fact::Varying,
    }
}

/// What is known of an operand, where this is known of the parameters and of the results so far.
pub(crate) fn operand_fact(pattern: &[Known], facts: &[Fact], operand: &Operand) -> Fact
    ensures { result ≡ operand_fact pattern.now facts.now operand.now }
{
    match operand {
        Operand::Param(k) => match pattern.get(*k) {
            Some(known) => known_fact(*known),
            None => Fact::Varying,
        },
        Operand::Reg(k) => match facts.get(*k) {
            Some(fact) => *fact,
            None => Fact::Varying,
        },
        Operand::Const(constant) => const_fact(constant),
    }
}

/// The sum of two known words of 32 bits, modulo 2^32.
fn known_sum(x: Known, y: Known) -> Fact
    ensures { result ≡ known_sum x y }
{
    match (x, y) {
        (Known::Num(x), Known::Num(y)) => Fact::One(Known::Num(x.wrapping_add(y) % (1 << 32))),
        (Known::Num(_), Known::Unknown) => Fact::Varying,
        (Known::Num(_), Known::Null) => Fact::Varying,
        (Known::Unknown, _) => Fact::Varying,
        (Known::Null, _) => Fact::Varying,
    }
}

fn fact_sum(x: Fact, y: Fact) -> Fact
    ensures { result ≡ fact_sum x y }
{
    match (x, y) {
        (Fact::Varying, _) => Fact::Varying,
        (Fact::Unreached, Fact::Varying) => Fact::Varying,
        (Fact::Unreached, Fact::One(_)) => Fact::Unreached,
        (Fact::Unreached, Fact::Unreached) => Fact::Unreached,
        (Fact::One(_), Fact::Varying) => Fact::Varying,
        (Fact::One(_), Fact::Unreached) => Fact::Unreached,
        (Fact::One(x), Fact::One(y)) => known_sum(x, y),
    }
}

fn operation_fact(op: BinOp, x: Fact, y: Fact) -> Fact
    ensures { result ≡ operation_fact op x y }
{
    match op {
        BinOp::Add => fact_sum(x, y),
        BinOp::Sub => Fact::Varying,
        BinOp::Mul => Fact::Varying,
        BinOp::Udiv => Fact::Varying,
        BinOp::Sdiv => Fact::Varying,
        BinOp::Urem => Fact::Varying,
        BinOp::Srem => Fact::Varying,
        BinOp::Shl => Fact::Varying,
        BinOp::Lshr => Fact::Varying,
        BinOp::Ashr => Fact::Varying,
        BinOp::And => Fact::Varying,
        BinOp::Or => Fact::Varying,
        BinOp::Xor => Fact::Varying,
    }
}

/// What an instruction says of its result.
fn said(pattern: &[Known], facts: &[Fact], inst: &Inst) -> Fact
    ensures { result ≡ said pattern.now facts.now inst.now }
{
    match inst {
        Inst::Bin { op, a, b, .. } => {
            let a = operand_fact(pattern, facts, a);
            let b = operand_fact(pattern, facts, b);
            operation_fact(*op, a, b)
        }
        Inst::Icmp { .. } => Fact::Varying,
        Inst::Select { .. } => Fact::Varying,
        Inst::Cast { .. } => Fact::Varying,
        Inst::Alloca { .. } => Fact::Varying,
        Inst::Load { .. } => Fact::Varying,
        Inst::Store { .. } => Fact::Varying,
        Inst::Gep { .. } => Fact::Varying,
        Inst::Call { .. } => Fact::Varying,
    }
}

/// What is known of each result of a block, where this is known of the parameters. `OutOfMemory` says that the allocator
/// refused memory.
pub(crate) fn facts_of(
    alloc: Global,
    pattern: &[Known],
    insts: &[Inst],
) -> Result<List<Fact>, OutOfMemory>
    ensures { IfOk result (λ facts. facts ≡ facts_of pattern.now insts.now) }
{
    let mut facts = List::new(alloc);
    for inst in insts {
        let fact = said(pattern, facts.as_slice(), inst);
        facts.push(fact)?;
    }
    Ok(facts)
}

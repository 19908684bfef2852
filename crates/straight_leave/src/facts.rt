//! What folding knows of operands, and the operands with known values put in.
ghost use Rattle.std.specs.Prelude.{◌≡◌, slice_get, IfOk};
ghost use Rattle.demands.specs.Names.{is_unknown as is_unknown_item, are_unknown as are_unknown_items};
ghost use Rattle.straight_plan.specs.Folding.{known_fact as fact_of_known, param_fact as fact_of_param, fact_at as fact_found, const_fact as fact_of_const, operand_fact as fact_of_operand};
ghost use Rattle.straight_plan.specs.Residual.{put as put_in, stays as does_stay, is_one as is_one_value};

use ir_syntax::{Const, Inst, Operand};
use ir_types::{Copied, Known, OutOfMemory};
use std::alloc::Global;
use straight_plan::Fact;

pub(crate) fn is_unknown(known: &Known) -> bool
    ensures { result ≡ is_unknown_item known.now }
{
    match known {
        Known::Unknown => true,
        Known::Num(_) => false,
        Known::Null => false,
    }
}

/// Nothing is known.
pub(crate) fn are_unknown(pattern: &[Known]) -> bool
    ensures { result ≡ are_unknown_items pattern.now }
{
    pattern.iter().all(is_unknown)
}

fn known_fact(known: Known) -> Fact
    ensures { result ≡ fact_of_known known }
{
    match known {
        Known::Unknown => Fact::Varying,
        Known::Num(number) => Fact::One(Known::Num(number)),
        Known::Null => Fact::One(Known::Null),
    }
}

fn param_fact(pattern: &[Known], k: usize) -> Fact
    ensures { result ≡ fact_of_param (slice_get pattern.now k) }
{
    match pattern.get(k).copied() {
        Some(known) => known_fact(known),
        None => Fact::Varying,
    }
}

/// What is known of a result, by its number.
pub(crate) fn fact_at(facts: &[Fact], k: usize) -> Fact
    ensures { result ≡ fact_found (slice_get facts.now k) }
{
    match facts.get(k).copied() {
        Some(fact) => fact,
        None => Fact::Varying,
    }
}

fn const_fact(constant: &Const) -> Fact
    ensures { result ≡ fact_of_const constant.now }
{
    match constant {
        Const::Int(number) => Fact::One(Known::Num(*number)),
        Const::Null => Fact::One(Known::Null),
        Const::Addr(_, _) => Fact::Varying,
        Const::Undef => Fact::Varying,
        Const::Poison => Fact::Varying,
        Const::Zero => Fact::Varying,
        Const::Text(_) => Fact::Varying,
        Const::Many(_) => Fact::Varying,
    }
}

fn operand_fact(pattern: &[Known], facts: &[Fact], operand: &Operand) -> Fact
    ensures { result ≡ fact_of_operand pattern.now facts.now operand.now }
{
    match operand {
        Operand::Param(k) => param_fact(pattern, *k),
        Operand::Reg(k) => fact_at(facts, *k),
        Operand::Const(constant) => const_fact(constant),
    }
}

/// The operand, or its value where that is known.
pub(crate) fn put(
    alloc: Global,
    pattern: &[Known],
    facts: &[Fact],
    operand: &Operand,
) -> Result<Operand, OutOfMemory>
    ensures { IfOk result (λ value. value ≡ put_in pattern.now facts.now operand.now) }
{
    match operand_fact(pattern, facts, operand) {
        Fact::One(Known::Num(number)) => Ok(Operand::Const(Const::Int(number))),
        Fact::One(Known::Null) => Ok(Operand::Const(Const::Null)),
        Fact::One(Known::Unknown) => operand.copied(alloc),
        Fact::Unreached => operand.copied(alloc),
        Fact::Varying => operand.copied(alloc),
    }
}

fn is_one(fact: Fact) -> bool
    ensures { result ≡ is_one_value fact }
{
    match fact {
        Fact::Unreached => false,
        Fact::One(_) => true,
        Fact::Varying => false,
    }
}

/// Operations with a known value are left out; everything else stays.
pub(crate) fn stays(fact: Fact, inst: &Inst) -> bool
    ensures { result ≡ does_stay fact inst.now }
{
    match inst {
        Inst::Bin { .. } => !is_one(fact),
        Inst::Icmp { .. } => true,
        Inst::Select { .. } => true,
        Inst::Cast { .. } => true,
        Inst::Alloca { .. } => true,
        Inst::Load { .. } => true,
        Inst::Store { .. } => true,
        Inst::Gep { .. } => true,
        Inst::Call { .. } => true,
    }
}

//! What is known of an operand.
ghost use Rattle.std.specs.Prelude.{◌≡◌};
ghost use Rattle.fold_facts.specs.Assigned.{fact_of as fact_in};
ghost use Rattle.fold_facts.specs.Operands.{known_fact as of_known, const_fact as of_const, operand_fact as of_operand};

use crate::Fact;
use ir_syntax::{Const, Operand};
use ir_types::Known;

fn known_fact(known: Known) -> Fact
    ensures { result ≡ of_known known }
{
    match known {
        Known::Unknown => Fact::Varying,
        Known::Num(number) => Fact::One(Known::Num(number)),
        Known::Null => Fact::One(Known::Null),
    }
}

fn const_fact(constant: &Const) -> Fact
    ensures { result ≡ of_const constant.now }
{
    match constant {
        Const::Int(number) => Fact::One(Known::Num(*number)),
        Const::Null => Fact::One(Known::Null),
        Const::Addr(_, _) => Fact::Varying,
        Const::Undef => Fact::Varying,
        Const::Poison => Fact::Varying,
        Const::Zero => Fact::Varying,
        Const::Text(_) => Fact::Varying,
        Const::Many(_) => Fact::Varying,
    }
}

/// The fact of the k-th result. One that isn't there is unreached.
pub(crate) fn fact_of(facts: &[Fact], k: usize) -> Fact
    ensures { result ≡ fact_in facts.now k }
{
    match facts.get(k) {
        Some(fact) => *fact,
        None => Fact::Unreached,
    }
}

/// What is known of an operand, where this is known of the parameters and of the results.
pub(crate) fn operand_fact(known: &[Known], facts: &[Fact], operand: &Operand) -> Fact
    ensures { result ≡ of_operand (record { known = known.now }) facts.now operand.now }
{
    match operand {
        Operand::Param(k) => match known.get(*k) {
            Some(known) => known_fact(*known),
            None => Fact::Varying,
        },
        Operand::Reg(k) => fact_of(facts, *k),
        Operand::Const(constant) => const_fact(constant),
    }
}

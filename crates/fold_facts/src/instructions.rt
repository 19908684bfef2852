//! What an instruction says of its result.
ghost use Rattle.std.specs.Prelude.{◌≡◌};
ghost use Rattle.fold_facts.specs.Arithmetic.{bin_fact as of_bin, icmp_fact as of_icmp, cast_fact as of_cast};
ghost use Rattle.fold_facts.specs.Instructions.{of_one, of_two, arm_fact as of_arm, select_fact as of_select, inst_fact as of_inst};

use crate::Fact;
use crate::arithmetic::{bin_fact, cast_fact, icmp_fact};
use crate::operands::operand_fact;
use ir_syntax::Inst;
use ir_types::{BinOp, CastOp, Flags, Known, Pred, Scalar};

fn bin_of(op: BinOp, flags: Flags, ty: Scalar, a: Fact, b: Fact) -> Fact
    ensures { result ≡ of_two (of_bin op flags ty) a b }
{
    match (a, b) {
        (Fact::Varying, _) => Fact::Varying,
        (Fact::Unreached, Fact::Unreached) => Fact::Unreached,
        (Fact::Unreached, Fact::One(_)) => Fact::Unreached,
        (Fact::Unreached, Fact::Varying) => Fact::Varying,
        (Fact::One(_), Fact::Unreached) => Fact::Unreached,
        (Fact::One(a), Fact::One(b)) => bin_fact(op, flags, ty, a, b),
        (Fact::One(_), Fact::Varying) => Fact::Varying,
    }
}

fn icmp_of(pred: Pred, ty: Scalar, a: Fact, b: Fact) -> Fact
    ensures { result ≡ of_two (of_icmp pred ty) a b }
{
    match (a, b) {
        (Fact::Varying, _) => Fact::Varying,
        (Fact::Unreached, Fact::Unreached) => Fact::Unreached,
        (Fact::Unreached, Fact::One(_)) => Fact::Unreached,
        (Fact::Unreached, Fact::Varying) => Fact::Varying,
        (Fact::One(_), Fact::Unreached) => Fact::Unreached,
        (Fact::One(a), Fact::One(b)) => icmp_fact(pred, ty, a, b),
        (Fact::One(_), Fact::Varying) => Fact::Varying,
    }
}

fn cast_of(op: CastOp, nneg: bool, from: Scalar, to: Scalar, a: Fact) -> Fact
    ensures { result ≡ of_one (of_cast op nneg from to) a }
{
    match a {
        Fact::Unreached => Fact::Unreached,
        Fact::One(a) => cast_fact(op, nneg, from, to, a),
        Fact::Varying => Fact::Varying,
    }
}

/// The fact of the arm that a known condition chooses.
fn arm_fact(cond: Known, a: Fact, b: Fact) -> Fact
    ensures { result ≡ of_arm cond a b }
{
    match cond {
        Known::Unknown => Fact::Varying,
        Known::Num(number) => { if number == 0 { b } else { a } }
        Known::Null => Fact::Varying,
    }
}

fn select_fact(cond: Fact, a: Fact, b: Fact) -> Fact
    ensures { result ≡ of_select cond a b }
{
    match cond {
        Fact::Unreached => Fact::Unreached,
        Fact::One(known) => arm_fact(known, a, b),
        Fact::Varying => Fact::Varying,
    }
}

/// What an instruction says of its result, where this is known of the parameters and of the results. One without a result
/// says that it varies.
pub(crate) fn inst_fact(known: &[Known], facts: &[Fact], inst: &Inst) -> Fact
    ensures { result ≡ of_inst (record { known = known.now }) facts.now inst.now }
{
    match inst {
        Inst::Bin {
            op,
            flags,
            ty,
            a,
            b,
        } => {
            let a = operand_fact(known, facts, a);
            let b = operand_fact(known, facts, b);
            bin_of(*op, *flags, *ty, a, b)
        }
        Inst::Icmp { pred, ty, a, b } => {
            let a = operand_fact(known, facts, a);
            let b = operand_fact(known, facts, b);
            icmp_of(*pred, *ty, a, b)
        }
        Inst::Select { cond, a, b, .. } => {
            let cond = operand_fact(known, facts, cond);
            let a = operand_fact(known, facts, a);
            let b = operand_fact(known, facts, b);
            select_fact(cond, a, b)
        }
        Inst::Cast {
            op,
            nneg,
            from,
            to,
            a,
        } => cast_of(*op, *nneg, *from, *to, operand_fact(known, facts, a)),
        Inst::Alloca { .. } => Fact::Varying,
        Inst::Load { .. } => Fact::Varying,
        Inst::Store { .. } => Fact::Varying,
        Inst::Gep { .. } => Fact::Varying,
        Inst::Call { .. } => Fact::Varying,
    }
}

//! What an instruction may have.
ghost use Rattle.std.specs.Prelude.{◌≡◌};
ghost use Rattle.ir_syntax.specs.FormedBody.{may_wrap, may_be_exact, may_be_disjoint};
ghost use Rattle.ir_grammar.specs.Tokens.{seen};
ghost use Rattle.ir_scope.specs.Runs.{begins_with};
ghost use Rattle.ir_operands.specs.Operands.{allows, allows_nneg};
ghost use Rattle.ir_insts.specs.Insts.{is_integer};

use ir_grammar::{Lexeme, Shape};
use ir_types::{BinOp, CastOp, Flags, Scalar};

/// Whether an operation may have `nuw` and `nsw`.
fn may_wrap(op: BinOp) -> bool
    ensures { result ≡ may_wrap op }
{
    matches!(op, BinOp::Add | BinOp::Sub | BinOp::Mul | BinOp::Shl)
}

/// Whether it may have `exact`.
fn may_be_exact(op: BinOp) -> bool
    ensures { result ≡ may_be_exact op }
{
    matches!(op, BinOp::Udiv | BinOp::Sdiv | BinOp::Lshr | BinOp::Ashr)
}

/// Whether it may have `disjoint`.
fn may_be_disjoint(op: BinOp) -> bool
    ensures { result ≡ may_be_disjoint op }
{
    matches!(op, BinOp::Or)
}

/// Whether an operation has no flag but its own.
pub(crate) fn allows(op: BinOp, flags: Flags) -> bool
    ensures { result ≡ allows op flags }
{
    (!flags.nuw || may_wrap(op))
        && (!flags.nsw || may_wrap(op))
        && (!flags.exact || may_be_exact(op))
        && (!flags.disjoint || may_be_disjoint(op))
}

/// Whether `nneg` stands at `zext` alone.
pub(crate) fn allows_nneg(op: CastOp, nneg: bool) -> bool
    ensures { result ≡ allows_nneg op nneg }
{
    match op {
        CastOp::Zext => true,
        _ => !nneg,
    }
}

/// Whether an integer type stands first.
pub(crate) fn begins_integer(kept: &[Lexeme]) -> bool
    ensures { result ≡ begins_with is_integer (seen kept.now) }
{
    match kept {
        [first, ..] => match first.shape {
            Shape::Scalar(Scalar::Ptr) => false,
            Shape::Scalar(_) => true,
            _ => false,
        },
        [] => false,
    }
}

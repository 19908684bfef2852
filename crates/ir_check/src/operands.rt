//! Types of operands.
ghost use Rattle.std.specs.Prelude.{◌≡◌, ◌↔◌, ◌<◌, IsTrue};
ghost use Rattle.std.specs.List.{All};
ghost use Rattle.ir_syntax.specs.Typed.{HasType, Widths};
ghost use Rattle.ir_check.specs.Scopes.{types_of};

use crate::names::names_no_intrinsic;
use crate::scope::Scope;
use ir_syntax::{Arg, Operand};
use ir_types::{CastOp, Scalar};

/// Whether two types are one.
pub fn same_scalar(a: Scalar, b: Scalar) -> bool
    ensures { IsTrue result ↔ (a ≡ b) }
{
    a == b
}

/// Whether the cast goes to a wider type, or to a narrower one for `trunc`.
pub fn has_widths(op: CastOp, from: Scalar, to: Scalar) -> bool
    ensures { IsTrue result ↔ Widths op from to }
{
    match op {
        CastOp::Zext => from.width() < to.width(),
        CastOp::Sext => from.width() < to.width(),
        CastOp::Trunc => to.width() < from.width(),
    }
}

/// Whether the operand has the type. A constant has it where it names no intrinsic.
pub fn has_type(scope: &Scope, ty: Scalar, operand: &Operand) -> bool
    ensures { IsTrue result ↔ HasType (types_of scope.now) ty operand.now }
{
    match operand {
        Operand::Param(k) => match scope.params.get(*k) {
            Some(param) => same_scalar(param.ty, ty),
            None => false,
        },
        Operand::Reg(k) => match scope.results.get(*k) {
            Some(found) => same_scalar(*found, ty),
            None => false,
        },
        Operand::Const(constant) => names_no_intrinsic(scope.items, constant),
    }
}

/// Whether each argument has its type.
pub fn have_types(scope: &Scope, args: &[Arg]) -> bool
    ensures { IsTrue result ↔ All (λ arg. HasType (types_of scope.now) arg.ty arg.value) args.now }
{
    args.iter().all(|arg| has_type(scope, arg.ty, &arg.value))
}

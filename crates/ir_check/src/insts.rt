//! Types of instructions.
ghost use Rattle.std.specs.Prelude.{◌≡◌, ◌↔◌, ◌<◌, ◌*◌, ◌^◌, IsTrue};
ghost use Rattle.std.specs.List.{All};
ghost use Rattle.ir_types.specs.Layout.{size};
ghost use Rattle.ir_syntax.specs.Typed.{IsNarrow, HasType, TypedInst};
ghost use Rattle.ir_check.specs.Scopes.{types_of};

use crate::calls::is_typed_call;
use crate::operands::{has_type, has_widths};
use crate::scope::Scope;
use crate::walks::is_walk;
use ir_syntax::{Inst, Operand};
use ir_types::{Scalar, Ty, size_of};

/// The least size that is too wide.
const LIMIT: u64 = 2147483648;

/// Whether the type and each of its parts has a size below 2^31.
pub fn is_narrow(ty: &Ty) -> bool
    ensures { IsTrue result ↔ IsNarrow ty.now }
{
    size_of(ty).is_ok()
}

/// Whether so many values of a type take less than 2^31 bytes together, and the type is narrow.
fn is_small(ty: &Ty, count: u64) -> bool
    ensures { IsTrue result ↔ (IsNarrow ty.now × (size ty.now * count < 2 ^ 31)) }
{
    match size_of(ty) {
        Ok(size) => match u64::from(size).checked_mul(count) {
            Some(whole) => whole < LIMIT,
            None => false,
        },
        Err(_) => false,
    }
}

/// Whether each index has the type that is written for it.
fn have_index_types(scope: &Scope, indices: &[(Scalar, Operand)]) -> bool
    ensures { IsTrue result ↔ All (λ index. HasType (types_of scope.now) index.0 index.1) indices.now }
{
    indices
        .iter()
        .all(|index| has_type(scope, index.0, &index.1))
}

/// Whether the instruction is well typed.
pub fn is_typed_inst(scope: &Scope, inst: &Inst) -> bool
    ensures { IsTrue result ↔ TypedInst (types_of scope.now) inst.now }
{
    match inst {
        Inst::Bin { ty, a, b, .. } => {
            ty.is_integer() && has_type(scope, *ty, a) && has_type(scope, *ty, b)
        }
        Inst::Icmp { ty, a, b, .. } => has_type(scope, *ty, a) && has_type(scope, *ty, b),
        Inst::Select { ty, cond, a, b } => {
            has_type(scope, Scalar::I1, cond) && has_type(scope, *ty, a) && has_type(scope, *ty, b)
        }
        Inst::Cast {
            op,
            from,
            to,
            a,
            ..
        } => {
            from.is_integer()
                && to.is_integer()
                && has_widths(*op, *from, *to)
                && has_type(scope, *from, a)
        }
        Inst::Alloca { ty, count, .. } => is_small(ty, *count),
        Inst::Load { at, .. } => has_type(scope, Scalar::Ptr, at),
        Inst::Store { ty, value, at, .. } => {
            has_type(scope, *ty, value) && has_type(scope, Scalar::Ptr, at)
        }
        Inst::Gep {
            ty,
            base,
            indices,
            ..
        } => {
            is_narrow(ty)
                && has_type(scope, Scalar::Ptr, base)
                && have_index_types(scope, indices.as_slice())
                && is_walk(ty, indices.as_slice())
        }
        Inst::Call {
            fn_ty,
            callee,
            args,
            ..
        } => is_typed_call(scope, fn_ty, callee, args.as_slice()),
    }
}

/// Whether each instruction is well typed.
pub fn are_typed_insts(scope: &Scope, insts: &[Inst]) -> bool
    ensures { IsTrue result ↔ All (TypedInst (types_of scope.now)) insts.now }
{
    for inst in insts {
        if !is_typed_inst(scope, inst) {
            return false;
        }
    }
    true
}

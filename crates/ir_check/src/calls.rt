//! Calls.
ghost use Rattle.std.specs.Prelude.{◌≡◌, ◌↔◌, IsTrue, Some, map, take, length, slice_get};
ghost use Rattle.ir_syntax.specs.Typed.{CalleeSuits, TypedCall};
ghost use Rattle.ir_syntax.specs.Callees.{written_callee};
ghost use Rattle.ir_syntax.specs.FunctionTypes.{function_type};
ghost use Rattle.ir_check.specs.Scopes.{types_of};

use crate::operands::{has_type, have_types, same_scalar};
use crate::scope::Scope;
use ir_syntax::{Arg, Item, Operand};
use ir_types::{FnType, Scalar};

/// Whether the item at a place is a function of this type.
fn is_function(items: &[Item], place: usize, fn_ty: &FnType) -> bool
    ensures { IsTrue result ↔ (function_type (slice_get items.now place) ≡ Some fn_ty.now) }
{
    match items.get(place) {
        Some(Item::Func(func)) => func.has_type(fn_ty),
        Some(Item::Var(_)) => false,
        None => false,
    }
}

/// Whether the callee is a function of this type, or a pointer.
fn callee_suits(scope: &Scope, fn_ty: &FnType, callee: &Operand) -> bool
    ensures { IsTrue result ↔ CalleeSuits (types_of scope.now) fn_ty.now callee.now (written_callee callee.now) }
{
    match callee.written_callee() {
        Some(place) => is_function(scope.items, place, fn_ty),
        None => has_type(scope, Scalar::Ptr, callee),
    }
}

/// Whether the arguments have these types.
fn have_args(args: &[Arg], types: &[Scalar]) -> bool
    ensures { IsTrue result ↔ (map (λ arg. arg.ty) args.now ≡ types.now) }
{
    if args.len() != types.len() {
        return false;
    }
    for (i, arg) in args.iter().enumerate() {
        if !same_scalar(arg.ty, types[i]) {
            return false;
        }
    }
    true
}

/// Whether the call's fixed arguments have the written types.
fn are_fixed(types: &[Scalar], args: &[Arg]) -> bool
    ensures { IsTrue result ↔ (map (λ arg. arg.ty) (take (length types.now) args.now) ≡ types.now) }
{
    if args.len() < types.len() {
        return false;
    }
    have_args(&args[..types.len()], types)
}

/// Whether the callee and the arguments suit the written type.
pub fn is_typed_call(scope: &Scope, fn_ty: &FnType, callee: &Operand, args: &[Arg]) -> bool
    ensures { IsTrue result ↔ TypedCall (types_of scope.now) fn_ty.now callee.now args.now }
{
    are_fixed(fn_ty.params.as_slice(), args)
        && (fn_ty.variadic || args.len() == fn_ty.params.len())
        && have_types(scope, args)
        && callee_suits(scope, fn_ty, callee)
}

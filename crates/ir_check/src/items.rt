//! Types of variables and functions.
ghost use Rattle.std.specs.Prelude.{◌≡◌, ◌↔◌, IsTrue, IfOk, false, map};
ghost use Rattle.ir_syntax.specs.FunctionTypes.{type_of};
ghost use Rattle.ir_syntax.specs.Intrinsics.{is_intrinsic, intrinsic_type};
ghost use Rattle.ir_syntax.specs.Typed.{TypedVar, TypedBody, TypedFunc, TypedItem};
ghost use Rattle.ir_syntax.specs.Results.{results};

use crate::bodies::is_typed_body;
use crate::insts::is_narrow;
use crate::names::names_no_intrinsic;
use crate::results::results_of;
use crate::scope::Scope;
use ir_syntax::{Body, Func, Intrinsic, Item, Var};
use ir_types::OutOfMemory;
use std::alloc::Global;

/// Whether the function is no intrinsic, or has the type of the one that it is.
fn suits_name(alloc: Global, func: &Func) -> Result<bool, OutOfMemory>
    ensures { IfOk result (λ suits. IsTrue suits ↔ (IsTrue (is_intrinsic func.now.name) → type_of func.now ≡ intrinsic_type func.now.name)) }
{
    match Intrinsic::of_name(func.name.as_slice()) {
        Some(intrinsic) => Ok(func.has_type(&intrinsic.fn_type(alloc)?)),
        None => Ok(true),
    }
}

/// Whether the body of a function is well typed, and the function isn't variadic.
fn is_typed_definition(
    alloc: Global,
    items: &[Item],
    func: &Func,
    body: &Body,
) -> Result<bool, OutOfMemory>
    ensures { IfOk result (λ typed. IsTrue typed ↔ ((func.now.variadic ≡ false) × TypedBody (record { items = items.now; params = map (λ param. param.ty) func.now.params; results = results body.now }) func.now.returns body.now.blocks)) }
{
    let results = results_of(alloc, body)?;
    let scope = Scope {
        items,
        params: func.params.as_slice(),
        results: results.as_slice(),
    };
    let typed = is_typed_body(alloc, &scope, func.returns, body.blocks.as_slice())?;
    Ok(!func.variadic && typed)
}

/// Whether the function is well typed among these items.
fn is_typed_func(alloc: Global, items: &[Item], func: &Func) -> Result<bool, OutOfMemory>
    ensures { IfOk result (λ typed. IsTrue typed ↔ TypedFunc items.now func.now) }
{
    if !suits_name(alloc, func)? {
        return Ok(false);
    }
    match &func.body {
        Some(body) => is_typed_definition(alloc, items, func, body),
        None => Ok(true),
    }
}

/// Whether the variable is well typed among these items.
fn is_typed_var(items: &[Item], var: &Var) -> bool
    ensures { IsTrue result ↔ TypedVar items.now var.now }
{
    is_narrow(&var.ty)
        && match &var.init {
            Some(init) => names_no_intrinsic(items, init),
            None => true,
        }
}

/// Whether the item is well typed among these items.
pub fn is_typed_item(alloc: Global, items: &[Item], item: &Item) -> Result<bool, OutOfMemory>
    ensures { IfOk result (λ typed. IsTrue typed ↔ TypedItem items.now item.now) }
{
    match item {
        Item::Var(var) => Ok(is_typed_var(items, var)),
        Item::Func(func) => is_typed_func(alloc, items, func),
    }
}

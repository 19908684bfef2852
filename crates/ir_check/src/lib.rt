//! Checks that a module is well typed.
#![tactic(auto)]

mod bodies;
mod calls;
mod constants;
mod fault;
mod incoming;
mod insts;
mod items;
mod names;
mod operands;
mod phis;
mod results;
mod scope;
mod terms;
mod walks;

ghost use Rattle.std.specs.Prelude.{◌≡◌, IfOk, OnOk, IfErr, MatchOption};
ghost use Rattle.std.specs.List.{All};
ghost use Rattle.ir_syntax.specs.Formed.{Formed};
ghost use Rattle.ir_syntax.specs.Typed.{TypedItem, Typed};
ghost use Rattle.ir_check.specs.IllTyped.{IsFirstIllTyped, IsCause};

use crate::items::is_typed_item;
pub use fault::TypeFault;
use ir_syntax::{Item, Module};
use ir_types::OutOfMemory;
use std::alloc::Global;

/// The place of the first item that isn't well typed among these, and `None` where each is. `OutOfMemory` says that the allocator refused memory.
pub fn first_ill_typed(alloc: Global, items: &[Item]) -> Result<Option<usize>, OutOfMemory>
    ensures { IfOk result (λ found. MatchOption found (All (TypedItem items.now) items.now) (IsFirstIllTyped items.now)) }
{
    for (at, item) in items.iter().enumerate() {
        let typed = is_typed_item(alloc, items, item)?;
        if !typed {
            return Ok(Some(at));
        }
    }
    Ok(None)
}

/// Checks that each item of a formed module is well typed among its items: operands have the types that
/// are written for them, phis have one entry for each incoming edge, sizes are below 2^31 bytes, and so
/// on.
///
/// `IllTyped { item }` comes exactly where the module isn't well typed, and names the first item that
/// isn't. `OutOfMemory` comes where memory is refused.
pub fn check_types(alloc: Global, m: &Module) -> Result<(), TypeFault>
    requires formed { Formed m.now }
    ensures typed { OnOk result (Typed m.now) }
    ensures ill_typed { IfErr result (λ fault. IsCause m.now fault) }
{
    match first_ill_typed(alloc, m.items.as_slice())? {
        Some(item) => Err(TypeFault::IllTyped { item }),
        None => Ok(()),
    }
}

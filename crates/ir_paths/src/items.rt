//! The functions of a module.
ghost use Rattle.std.specs.Prelude.{◌≡◌, ℕ, List, All, IfOk, OnOk, MatchBool};
ghost use Rattle.ir_syntax.specs.declared.item.Item.{Item};
ghost use Rattle.ir_syntax.specs.Formed.{Formed};
ghost use Rattle.ir_syntax.specs.FormedBody.{FormedBody};
ghost use Rattle.ir_syntax.specs.FormedItem.{FormedItem};
ghost use Rattle.ir_syntax.specs.Typed.{Typed};
ghost use Rattle.ir_syntax.specs.Definite.{DefiniteBody, DefiniteItem, Definite};
ghost use Rattle.ir_paths.specs.FirstIndefinite.{IsFirstIndefinite};

use crate::PathFault;
use crate::batch::all_passed;
use crate::definers::definers;
use crate::far::far_uses;
use ir_syntax::{Body, Item, Module};
use ir_types::OutOfMemory;
use std::alloc::Global;

/// Checks that on every path of blocks from the first block of a function to a use of a register, the definition comes
/// before the use.
///
/// `NotDefinite` comes exactly where a function fails this, and names the first that does; `OutOfMemory` may come in
/// place of any answer.
pub fn check_paths(alloc: Global, m: &Module) -> Result<(), PathFault>
    requires formed { Formed m.now }
    requires typed { Typed m.now }
    ensures definite { OnOk result (Definite m.now) }
    ensures not_definite { (item : ℕ) → result ≡ Err (PathFault.NotDefinite item) → IsFirstIndefinite m.now.items item }
{
    check_items(alloc, m.items.as_slice())
}

/// Checks the paths of the functions among the items, in their order. It has no condition; what it ensures is of items
/// that a text can write. The error is as that of `check_paths`.
pub fn check_items(alloc: Global, items: &[Item]) -> Result<(), PathFault>
    ensures definite { OnOk result (All (FormedItem items.now) items.now → All DefiniteItem items.now) }
    ensures not_definite { (item : ℕ) → result ≡ Err (PathFault.NotDefinite item) → All (FormedItem items.now) items.now → IsFirstIndefinite items.now item }
{
    for (place, item) in items.iter().enumerate() {
        if !is_definite_item(alloc, item)? {
            return Err(PathFault::NotDefinite { item: place });
        }
    }
    Ok(())
}

fn is_definite_item(alloc: Global, item: &Item) -> Result<bool, OutOfMemory>
    ensures { IfOk result (λ definite. (items : List Item) → FormedItem items item.now → MatchBool definite (DefiniteItem item.now) (¬ DefiniteItem item.now)) }
{
    match item {
        Item::Var(_) => Ok(true),
        Item::Func(func) => match &func.body {
            Some(body) => is_definite_body(alloc, body),
            None => Ok(true),
        },
    }
}

/// Whether each use of a register is surely defined. What it ensures is of bodies that a text can write.
pub(crate) fn is_definite_body(alloc: Global, body: &Body) -> Result<bool, OutOfMemory>
    ensures { IfOk result (λ definite. (items : List Item) (params : ℕ) → FormedBody items params body.now → MatchBool definite (DefiniteBody body.now) (¬ DefiniteBody body.now)) }
{
    let blocks = body.blocks.as_slice();
    let definers = definers(alloc, blocks)?;
    let far = far_uses(alloc, definers.as_slice(), blocks)?;
    all_passed(alloc, blocks, far)
}

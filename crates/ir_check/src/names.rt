//! Whether constants name intrinsics.
ghost use Rattle.std.specs.Prelude.{◌≡◌, ◌↔◌, IsTrue, slice_get};
ghost use Rattle.ir_syntax.specs.FormedBody.{is_intrinsic_item};
ghost use Rattle.ir_syntax.specs.Typed.{NamesNoIntrinsic};

use ir_syntax::{Const, Intrinsic, Item};

/// Whether the item at a place is an intrinsic.
fn is_intrinsic_at(items: &[Item], place: usize) -> bool
    ensures { result ≡ is_intrinsic_item (slice_get items.now place) }
{
    match items.get(place) {
        Some(Item::Var(var)) => Intrinsic::of_name(var.name.as_slice()).is_some(),
        Some(Item::Func(func)) => Intrinsic::of_name(func.name.as_slice()).is_some(),
        None => false,
    }
}

/// Whether the constant names no intrinsic. It recurses as deep as the constant nests.
pub fn names_no_intrinsic(items: &[Item], constant: &Const) -> bool
    ensures { IsTrue result ↔ NamesNoIntrinsic items.now constant.now }
{
    match constant {
        Const::Int(_) => true,
        Const::Null => true,
        Const::Addr(place, _) => !is_intrinsic_at(items, *place),
        Const::Undef => true,
        Const::Poison => true,
        Const::Zero => true,
        Const::Text(_) => true,
        Const::Many(parts) => {
            for part in parts.as_slice() {
                if !names_no_intrinsic(items, part) {
                    return false;
                }
            }
            true
        }
    }
}

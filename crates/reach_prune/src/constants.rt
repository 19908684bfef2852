//! Constants with the new places of what they name.
ghost use Rattle.std.specs.Prelude.{◌≡◌, IfOk, option_map};
ghost use Rattle.winnowed_form.specs.Bodies.{moved as moved_by};
ghost use Rattle.reach_prune.specs.Mirrors.Places.{place_in};

use crate::places::Places;
use ir_syntax::Const;
use ir_types::{List, OutOfMemory};
use std::alloc::Global;

/// The constant with the new place of each item that it names. It recurses as deep as the constant nests.
pub(crate) fn moved(alloc: Global, places: &Places, constant: &Const) -> Result<Const, OutOfMemory>
    ensures { IfOk result (λ made. made ≡ moved_by (place_in places.now) constant.now) }
{
    match constant {
        Const::Int(number) => Ok(Const::Int(*number)),
        Const::Null => Ok(Const::Null),
        Const::Addr(k, offset) => Ok(Const::Addr(places.own_place(*k), *offset)),
        Const::Undef => Ok(Const::Undef),
        Const::Poison => Ok(Const::Poison),
        Const::Zero => Ok(Const::Zero),
        Const::Text(bytes) => Ok(Const::Text(bytes.copy(alloc)?)),
        Const::Many(parts) => {
            let mut made = List::new(alloc);
            for part in parts.as_slice() {
                made.push(moved(alloc, places, part)?)?;
            }
            Ok(Const::Many(made))
        }
    }
}

/// An initialiser with the new place of each item that it names.
pub(crate) fn moved_init(
    alloc: Global,
    places: &Places,
    init: &Option<Const>,
) -> Result<Option<Const>, OutOfMemory>
    ensures { IfOk result (λ made. made ≡ option_map (moved_by (place_in places.now)) init.now) }
{
    match init {
        Some(constant) => Ok(Some(moved(alloc, places, constant)?)),
        None => Ok(None),
    }
}

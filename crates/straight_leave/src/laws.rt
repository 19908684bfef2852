//! Laws of what is left. They are the contract of a function that does nothing.
ghost use Rattle.std.specs.Prelude.{◌≡◌, ◌<◌, ◌^◌, List, length, slice_get};
ghost use Rattle.ir_syntax.specs.declared.item.Module.{Module};
ghost use Rattle.ir_syntax.specs.Straight.{IsStraight};
ghost use Rattle.straight_plan.specs.declared.cut.Ask.{Ask};
ghost use Rattle.straight_plan.specs.declared.cut.Cut.{Cut};
ghost use Rattle.straight_plan.specs.Left.{IsPlan, asks_of, place_of, left_module};
ghost use Rattle.straight_leave.specs.Entries.{IsNotNamed, IsLeftOf};
ghost use Rattle.straight_leave.specs.PlainNames.{HaveNoCopyNames, HaveNoReservedNames};

use demands::{demands_are_ordered, names_are_apart};

/// What is left by a plan of a straight module is straight, where no name of the module begins as those of copies do, and
/// where no body names the entry that is left for known arguments. Where no name of the module begins with `llvm.`, none
/// of what is left does. The entry is left with its name, its linkage and its parameters.
pub fn what_is_left_is_straight()
    ensures straight { (m : Module) (start : Ask) (plan : List Cut) → IsStraight m → HaveNoCopyNames m.items → IsPlan m.items start plan
        → IsNotNamed m.items start → length plan < 2 ^ 32 → IsStraight (left_module m start plan) }
    ensures names { (m : Module) (start : Ask) (plan : List Cut) → HaveNoReservedNames m.items
        → HaveNoReservedNames (left_module m start plan).items }
    ensures entry { (m : Module) (start : Ask) (plan : List Cut) → IsPlan m.items start plan
        → IsLeftOf (slice_get m.items start.place) (slice_get (left_module m start plan).items (place_of (asks_of plan) start)) }
{
    names_are_apart();
    demands_are_ordered();
}

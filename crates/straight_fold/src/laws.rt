//! Laws of least plans. Each is the contract of a function that does nothing.
ghost use Rattle.std.specs.Prelude.{◌≡◌, ℕ, List, slice_get, true, false};
ghost use Rattle.ir_types.specs.declared.scalar.Known.{Known};
ghost use Rattle.ir_syntax.specs.declared.item.Item.{Item};
ghost use Rattle.ir_syntax.specs.declared.item.Module.{Module};
ghost use Rattle.ir_syntax.specs.Straight.{IsStraight};
ghost use Rattle.demands.specs.Names.{are_unknown};
ghost use Rattle.demands.specs.Demands.{IsFunctionFor};
ghost use Rattle.straight_plan.specs.declared.cut.Ask.{Ask};
ghost use Rattle.straight_plan.specs.declared.cut.Cut.{Cut};
ghost use Rattle.straight_plan.specs.Asked.{is_copied, is_named, root};
ghost use Rattle.straight_plan.specs.Left.{AreTooMany, IsLeastPlan, IsPlan, IsPlanned, IsTooMuch};

use demands::demands_are_ordered;
use fixed_point::part_is_no_larger;
use straight_plan::{Ask, Cut};

/// There is one least plan.
pub fn plans_are_one()
    ensures { (items : List Item) (start : Ask) (one other : List Cut) → IsLeastPlan items start one → IsLeastPlan items start other → one ≡ other }
{}

/// A plan within the limits and the two refusals exclude each other.
pub fn limits_are_apart()
    ensures not_many { (items : List Item) (start : Ask) (plan : List Cut) → IsPlanned items start plan → AreTooMany items start → ⊥ }
    ensures not_much { (items : List Item) (start : Ask) (plan : List Cut) → IsPlanned items start plan → IsTooMuch items start → ⊥ }
    ensures not_both { (items : List Item) (start : Ask) → IsTooMuch items start → AreTooMany items start → ⊥ }
{
    part_is_no_larger::<Ask>();
    part_is_no_larger::<Cut>();
}

/// The least plan for a function of a straight-line module is a plan: all that it needs stands in it, and each of it is a
/// function with a body. Of a start that isn't copied nothing is known, and a start of which something is known is named by
/// no body.
pub fn least_plan_is_a_plan()
    ensures { (m : Module) (start : Ask) (plan : List Cut) → IsStraight m → IsFunctionFor start.pattern (slice_get m.items start.place)
        → (is_copied m.items start.place ≡ false → are_unknown start.pattern ≡ true)
        → (are_unknown start.pattern ≡ false → is_named m.items start.place ≡ false) → IsLeastPlan m.items start plan → IsPlan m.items start plan }
{
    demands_are_ordered();
}

/// What an entry is asked for with suits it: it is the function at its place, and a plan for it is one for the entry.
pub fn root_suits()
    ensures place { (items : List Item) (place : ℕ) (args : List Known) → (root items place args).place ≡ place }
    ensures function { (items : List Item) (place : ℕ) (args : List Known) → IsFunctionFor args (slice_get items place)
        → IsFunctionFor (root items place args).pattern (slice_get items place) }
    ensures copied { (items : List Item) (place : ℕ) (args : List Known) → is_copied items place ≡ false → are_unknown (root items place args).pattern ≡ true }
    ensures alone { (items : List Item) (place : ℕ) (args : List Known) → are_unknown (root items place args).pattern ≡ false → is_named items place ≡ false }
{}

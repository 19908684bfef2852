//! How much of a plan is left under its own name.
ghost use Rattle.std.specs.Prelude.{◌≡◌};
ghost use Rattle.straight_plan.specs.Left.{is_original as is_original_of, originals as originals_of, clones as clones_of};

use crate::facts::are_unknown;
use crate::functions::is_entry;
use straight_plan::{Ask, Cut};

fn is_original(start: &Ask, cut: &Cut) -> bool
    ensures { result ≡ is_original_of start.now cut.now }
{
    if is_entry(start, &cut.ask) {
        return true;
    }
    are_unknown(cut.ask.pattern.items())
}

/// How many of a plan are left under their own name: the entry, and each function of whose arguments nothing is known.
/// Takes no memory.
pub fn originals(start: &Ask, plan: &[Cut]) -> usize
    ensures { result ≡ originals_of start.now plan.now }
{
    plan.iter().filter(|cut| is_original(start, cut)).count()
}

/// How many of a plan are copies under a name of their own. Takes no memory.
pub fn clones(start: &Ask, plan: &[Cut]) -> usize
    ensures { result ≡ clones_of start.now plan.now }
{
    plan.iter().filter(|cut| !is_original(start, cut)).count()
}

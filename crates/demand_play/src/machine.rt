//! Events, from the first to the last.
ghost use Rattle.std.specs.Prelude.{◌≡◌, ℕ, IfOk, OnOk};
ghost use Rattle.demand_play.specs.Cores.{core_of};
ghost use Rattle.demand_play.specs.Legal.{IsLegal, IsFirstIllegal};

use crate::table::{Table, set_of};
use crate::{Core, CoreFault, TableEvent};
use demand_core::{Expand, Row};
use indexmap::IndexSet;
use std::alloc::Global;

/// The core that the events make, from the table without rows on. An event is legal where it inserts a row that isn't
/// there yet and that is a root without parent, or is needed by a parent that its worker claimed before, or where it
/// claims a row that is there and unclaimed.
///
/// `Illegal` comes exactly where an event isn't legal, with the place of the first, counted from 0; `OutOfMemory` may come
/// in place of any answer. Each claimed row is expanded once.
pub fn play<E: Expand>(
    alloc: Global,
    e: &E,
    roots: &[Row],
    events: &[TableEvent],
) -> Result<Core, CoreFault>
    ensures core { IfOk result (λ core. core ≡ core_of events.now) }
    ensures legal { OnOk result (IsLegal (E.needs_of e.now) roots.now events.now) }
    ensures illegal { (at : ℕ) → result ≡ Err (CoreFault.Illegal at) → IsFirstIllegal (E.needs_of e.now) roots.now events.now at }
{
    let rooted = set_of(alloc, roots)?;
    apply_all(alloc, e, &rooted, events)
}

/// The same, with the roots as a set.
fn apply_all<E: Expand>(
    alloc: Global,
    e: &E,
    roots: &IndexSet<Row>,
    events: &[TableEvent],
) -> Result<Core, CoreFault>
    ensures core { IfOk result (λ core. core ≡ core_of events.now) }
    ensures legal { OnOk result (IsLegal (E.needs_of e.now) roots.now.keys events.now) }
    ensures illegal { (at : ℕ) → result ≡ Err (CoreFault.Illegal at) → IsFirstIllegal (E.needs_of e.now) roots.now.keys events.now at }
{
    let mut table = Table::new(alloc);
    for (at, event) in events.iter().enumerate() {
        let legal = table.apply(alloc, e, roots, event)?;
        if !legal {
            return Err(CoreFault::Illegal { at });
        }
    }
    Ok(table.core)
}

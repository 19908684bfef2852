//! What a list of events makes.
use demand_core::Row;
use ir_types::{List, OutOfMemory};
use std::alloc::{AllocError, AllocFailed};

/// The table after some events. By ticket: the row, the worker that inserted it, the ticket of its parent, and the worker
/// that claimed it.
#[derive(Drop)]
pub struct Core {
    pub rows: List<Row>,
    pub makers: List<usize>,
    pub parents: List<Option<usize>>,
    pub claims: List<Option<usize>>,
}

/// Why there is no core: the event at a place, counted from 0, is the first that isn't legal. Want of memory may come in
/// place of any answer.
#[derive(Clone, Copy, Debug, PartialEq, Eq)]
pub enum CoreFault {
    Illegal { at: usize },
    OutOfMemory,
}

impl From<OutOfMemory> for CoreFault {
    ghost use Rattle.std.specs.Prelude.{◌≡◌};
    ghost use Rattle.demand_play.specs.declared.answer.CoreFault.{CoreFault};

    ghost from_gives = { λ _ fault. fault ≡ CoreFault.OutOfMemory };

    fn from(_fault: OutOfMemory) -> CoreFault {
        CoreFault::OutOfMemory
    }
}

//! Why there is no answer.
ghost use Rattle.std.specs.Prelude.{◌≡◌};

use ir_types::OutOfMemory;
use std::alloc::AllocFailed;

/// Why the needed rows weren't given: more than 65,536 of them, or at most so many whose sizes add to more than
/// 8,388,608. Want of memory may come at any time.
#[derive(Clone, Copy, Debug, PartialEq, Eq)]
pub enum FixFault {
    TooManyDemands,
    TooMuchCode,
    OutOfMemory,
}

impl From<OutOfMemory> for FixFault {
    ghost use Rattle.fixed_point.specs.declared.fault.FixFault.{FixFault};

    ghost from_gives = { λ _ fault. fault ≡ FixFault.OutOfMemory };

    fn from(_fault: OutOfMemory) -> FixFault {
        FixFault::OutOfMemory
    }
}

impl<T: Drop> From<AllocFailed<T>> for FixFault {
    ghost use Rattle.fixed_point.specs.declared.fault.FixFault.{FixFault};

    ghost from_gives = { λ _ fault. fault ≡ FixFault.OutOfMemory };

    fn from(_refused: AllocFailed<T>) -> FixFault {
        FixFault::OutOfMemory
    }
}

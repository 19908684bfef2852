//! Why a text isn't read.
ghost use Rattle.std.specs.Prelude.{◌≡◌};
ghost use Rattle.ir_parser.specs.declared.fault.ReadFault.TheVariants.{OutOfMemory};

use ir_types::OutOfMemory;
use std::alloc::AllocError;

/// Why a text isn't read as a module.
#[derive(Clone, Copy, Debug, PartialEq, Eq)]
pub enum ReadFault {
    /// The least offset from which no token, no blank and no comment goes on.
    BadByte { at: usize },
    /// The first entity that isn't spelled, or where all are, the first whose names or constants don't resolve.
    NotInSubset { entity: usize },
    /// The allocator refused memory.
    OutOfMemory,
}

impl From<OutOfMemory> for ReadFault {
    ghost from_gives = { λ _ fault. fault ≡ OutOfMemory };

    fn from(_fault: OutOfMemory) -> ReadFault {
        ReadFault::OutOfMemory
    }
}

impl From<AllocError> for ReadFault {
    ghost from_gives = { λ _ fault. fault ≡ OutOfMemory };

    fn from(_fault: AllocError) -> ReadFault {
        ReadFault::OutOfMemory
    }
}

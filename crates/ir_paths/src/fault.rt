//! Why a module isn't definite.
ghost use Rattle.std.specs.Prelude.{◌≡◌};

use ir_types::OutOfMemory;

/// A function uses a register that some path to the use doesn't define, and `item` is its place among the module's
/// items. Want of memory may come at any time.
#[derive(Clone, Copy, Debug, PartialEq, Eq)]
pub enum PathFault {
    NotDefinite { item: usize },
    OutOfMemory,
}

impl From<OutOfMemory> for PathFault {
    ghost use Rattle.ir_paths.specs.declared.fault.PathFault.{PathFault};

    ghost from_gives = { λ _ fault. fault ≡ PathFault.OutOfMemory };

    fn from(_fault: OutOfMemory) -> PathFault {
        PathFault::OutOfMemory
    }
}

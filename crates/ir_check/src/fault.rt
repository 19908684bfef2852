//! Why a check of types gives no answer that the module is well typed.
ghost use Rattle.std.specs.Prelude.{◌≡◌};

use ir_types::OutOfMemory;

/// Why a module isn't found to be well typed.
#[derive(Clone, Copy, Debug, PartialEq, Eq)]
pub enum TypeFault {
    /// The item at this place is the first that isn't well typed.
    IllTyped { item: usize },
    /// Memory was refused.
    OutOfMemory,
}

impl From<OutOfMemory> for TypeFault {
    ghost use Rattle.ir_check.specs.declared.fault.TypeFault.TheVariants.{OutOfMemory};

    ghost from_gives = { λ _ fault. fault ≡ OutOfMemory };

    fn from(_e: OutOfMemory) -> TypeFault {
        TypeFault::OutOfMemory
    }
}

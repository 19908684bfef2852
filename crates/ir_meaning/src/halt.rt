//! Why a part of a step gives nothing.
use int_ops::Cause;
use ir_types::OutOfMemory;
use std::alloc::AllocError;

/// A part of a step is undefined, or finds no memory.
#[derive(Clone, Copy, Debug, PartialEq, Eq)]
pub enum Halt {
    Undefined(Cause),
    OutOfMemory,
}

impl From<Cause> for Halt {
    ghost use Rattle.std.specs.Prelude.{◌≡◌};
    ghost use Rattle.ir_meaning.specs.declared.halt.Halt.TheVariants.{Undefined};

    ghost from_gives = { λ cause halt. halt ≡ Undefined cause };

    fn from(cause: Cause) -> Halt {
        Halt::Undefined(cause)
    }
}

impl From<OutOfMemory> for Halt {
    ghost use Rattle.std.specs.Prelude.{◌≡◌};
    ghost use Rattle.ir_meaning.specs.declared.halt.Halt.TheVariants.{OutOfMemory};

    ghost from_gives = { λ _ halt. halt ≡ OutOfMemory };

    fn from(_fault: OutOfMemory) -> Halt {
        Halt::OutOfMemory
    }
}

impl From<AllocError> for Halt {
    ghost use Rattle.std.specs.Prelude.{◌≡◌};
    ghost use Rattle.ir_meaning.specs.declared.halt.Halt.TheVariants.{OutOfMemory};

    ghost from_gives = { λ _ halt. halt ≡ OutOfMemory };

    fn from(_fault: AllocError) -> Halt {
        Halt::OutOfMemory
    }
}

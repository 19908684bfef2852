//! Worlds, which answer the calls that a program makes outside.
ghost use Rattle.std.specs.Prelude.{◌≡◌, ◌≢◌, ℕ, Option, IfOk, OnErr};
ghost use Rattle.occam_base.specs.Counts.{Rose};
ghost use Rattle.ir_steps.specs.declared.session.Reply.{Reply};
ghost use Rattle.ir_steps.specs.declared.session.Wanted.{Wanted};

use ir_meaning::{Reply, Wanted};
use ir_types::OutOfMemory;
use std::alloc::{AllocError, AllocFailed, Global};

/// Why a world gives no answer: its source or its sink failed, or memory was refused.
#[derive(Clone, Copy, Debug, PartialEq, Eq)]
pub enum WorldFault {
    Source,
    Sink,
    OutOfMemory,
}

impl From<OutOfMemory> for WorldFault {
    ghost use Rattle.std.specs.Prelude.{◌≡◌};
    ghost use Rattle.session_runs.specs.declared.world.WorldFault.TheVariants as fault;

    ghost from_gives = { λ _ e. e ≡ fault.OutOfMemory };

    fn from(_e: OutOfMemory) -> WorldFault {
        WorldFault::OutOfMemory
    }
}

impl From<AllocError> for WorldFault {
    ghost use Rattle.std.specs.Prelude.{◌≡◌};
    ghost use Rattle.session_runs.specs.declared.world.WorldFault.TheVariants as fault;

    ghost from_gives = { λ _ e. e ≡ fault.OutOfMemory };

    fn from(_e: AllocError) -> WorldFault {
        WorldFault::OutOfMemory
    }
}

impl<T: Drop> From<AllocFailed<T>> for WorldFault {
    ghost use Rattle.std.specs.Prelude.{◌≡◌};
    ghost use Rattle.session_runs.specs.declared.world.WorldFault.TheVariants as fault;

    ghost from_gives = { λ _ e. e ≡ fault.OutOfMemory };

    fn from(_e: AllocFailed<T>) -> WorldFault {
        WorldFault::OutOfMemory
    }
}

/// What a program's calls reach outside.
pub trait World {
    /// The world may answer the call so, and is then so.
    ghost answers: { Self → Wanted → Option Reply → Self → Type 0 };

    /// What a failure at the call leaves.
    ghost breaks: { Self → Wanted → Self → Type 0 };

    /// How often its source failed so far, and how often its sink. They never fall, and stand still at 2^64 - 1.
    ghost source_faults: { Self → ℕ };

    ghost sink_faults: { Self → ℕ };

    /// The reply to a call, or `None` where the world has none. `Source` and `Sink` come only where the count of that name rose.
    fn answer(&mut self, alloc: Global, call: &Wanted) -> Result<Option<Reply>, WorldFault>
        ensures answers { IfOk result (λ reply. answers self.old call.now reply self.new) }
        ensures breaks { OnErr result (breaks self.old call.now self.new) }
        ensures source_rose { result ≡ Err WorldFault.Source → Rose (source_faults self.old) (source_faults self.new) }
        ensures source_stays { result ≢ Err WorldFault.Source → source_faults self.new ≡ source_faults self.old }
        ensures sink_rose { result ≡ Err WorldFault.Sink → Rose (sink_faults self.old) (sink_faults self.new) }
        ensures sink_stays { result ≢ Err WorldFault.Sink → sink_faults self.new ≡ sink_faults self.old };
}

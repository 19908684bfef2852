ghost use Rattle.std.specs.Prelude.{◌≡◌, ◌≢◌, ◌≤◌, ◌<◌, ◌↔◌, Some, [], length, IfOk};
ghost use Rattle.occam_base.specs.Counts.{Rose};
ghost use Rattle.occam_base.specs.Failing.{FailsNow, after_call};
ghost use Rattle.occam_base.specs.Streams.{SinkOf};

use crate::countdown::is_failing;
use crate::{Fault, Sink};
use ir_types::{Bytes, OutOfMemory};
use sqlite_items::Items as List;
use std::alloc::Global;

/// A sink in memory that fails the calls it is told to.
#[derive(Debug, Drop)]
pub struct MemSink {
    bytes: Bytes,
    fail: List<u64>,
    faults: u64,
}

impl MemSink {
    /// A sink that took nothing yet. The calls with these numbers, counted from 1, fail.
    pub fn new(alloc: Global, fail: List<u64>) -> MemSink
        ensures none { result.bytes ≡ [] }
        ensures fail { result.fail ≡ fail }
    {
        MemSink {
            bytes: Bytes::new(alloc),
            fail,
            faults: 0,
        }
    }

    /// The bytes that were taken.
    pub fn taken(&self) -> &[u8]
        ensures { result.now ≡ self.now.bytes }
    {
        self.bytes.as_slice()
    }
}

impl Sink for MemSink {
    ghost taken = { λ s. Some s.bytes };

    ghost faults = { λ s. s.faults };

    /// The contract of sinks, and which call fails.
    fn write(&mut self, piece: &[u8]) -> Result<usize, Fault>
        ensures within { IfOk result (λ n. n ≤ length piece.now) }
        ensures gives { SinkOf (Some self.old.bytes) (Some self.new.bytes) piece.now result }
        ensures failed { result ≡ Err Fault.Failed → Rose self.old.faults self.new.faults }
        ensures none_taken { result ≡ Ok 0 → 0 < length piece.now → Rose self.old.faults self.new.faults }
        ensures some_taken { IfOk result (λ n. 0 < n → self.new.faults ≡ self.old.faults) }
        ensures empty_piece { length piece.now ≡ 0 → result ≢ Err Fault.Failed → self.new.faults ≡ self.old.faults }
        ensures out_of_memory { result ≡ Err Fault.OutOfMemory → self.new.faults ≡ self.old.faults }
        ensures never_falls { self.old.faults ≤ self.new.faults }
        ensures fails { (result ≡ Err Fault.Failed) ↔ FailsNow self.old.fail }
        ensures counted { self.new.fail ≡ after_call self.old.fail }
    {
        if is_failing(&mut self.fail) {
            self.faults = self.faults.saturating_add(1);
            return Err(Fault::Failed);
        }
        match self.bytes.append(piece) {
            Ok(()) => Ok(piece.len()),
            Err(OutOfMemory) => Err(Fault::OutOfMemory),
        }
    }
}

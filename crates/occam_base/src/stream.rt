ghost use Rattle.std.specs.Prelude.{◌≡◌, ◌≢◌, ◌≤◌, ◌<◌, ℕ, List, Option, length, IfOk, OnOk, OnErr};
ghost use Rattle.occam_base.specs.Counts.{Rose};
ghost use Rattle.occam_base.specs.Streams.{SourceOf, SinkOf};

use crate::{Failed, Fault};

/// Bytes that come in.
pub trait Source {
    /// The bytes that are left, where the source tells them.
    ghost left: { Self → Option (List ℕ) };

    /// How many reads failed so far. It never falls, and stands still at 2^64 - 1.
    ghost faults: { Self → ℕ };

    /// Takes bytes from the front into the front of `buf`, and says how many. 0 for a buffer with room is the
    /// end of input. `Failed` comes only where `faults` rose, and leaves what is left as it was.
    fn read(&mut self, buf: &mut [u8]) -> Result<usize, Failed>
        ensures within { IfOk result (λ n. n ≤ length buf.new) }
        ensures gives { SourceOf (left self.old) (left self.new) buf.old buf.new result }
        ensures failed { OnErr result (Rose (faults self.old) (faults self.new)) }
        ensures quiet { OnOk result (faults self.new ≡ faults self.old) }
        ensures never_falls { faults self.old ≤ faults self.new };
}

/// Bytes that go out.
pub trait Sink {
    /// The bytes that were taken, where the sink tells them.
    ghost taken: { Self → Option (List ℕ) };

    /// How many writes failed so far. It never falls, and stands still at 2^64 - 1.
    ghost faults: { Self → ℕ };

    /// Takes bytes from the front of the piece, and says how many. 0 for a piece that isn't empty counts as a
    /// fault. `Failed` comes only where `faults` rose. What was taken is as before after an error.
    fn write(&mut self, piece: &[u8]) -> Result<usize, Fault>
        ensures within { IfOk result (λ n. n ≤ length piece.now) }
        ensures gives { SinkOf (taken self.old) (taken self.new) piece.now result }
        ensures failed { result ≡ Err Fault.Failed → Rose (faults self.old) (faults self.new) }
        ensures none_taken { result ≡ Ok 0 → 0 < length piece.now → Rose (faults self.old) (faults self.new) }
        ensures some_taken { IfOk result (λ n. 0 < n → faults self.new ≡ faults self.old) }
        ensures empty_piece { length piece.now ≡ 0 → result ≢ Err Fault.Failed → faults self.new ≡ faults self.old }
        ensures out_of_memory { result ≡ Err Fault.OutOfMemory → faults self.new ≡ faults self.old }
        ensures never_falls { faults self.old ≤ faults self.new };
}

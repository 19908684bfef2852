ghost use Rattle.std.specs.Prelude.{◌≡◌, ◌≢◌, ◌≤◌, ℕ, List, Option, length, IfOk, OnOk, OnErr, is_some};
ghost use Rattle.occam_base.specs.Counts.{Rose};
ghost use Rattle.occam_base.specs.Files.{FileMap, ReadOf, PutOf};
ghost use Rattle.occam_base.specs.declared.shelf.Read.TheVariants as read;

use crate::{Failed, Fault};

/// What a read found: so many bytes, or that there is no such file.
#[derive(Clone, Copy, Debug, PartialEq, Eq)]
pub enum Read {
    Got(usize),
    Absent,
}

/// Named files, each read in pieces and replaced as a whole.
pub trait Shelf {
    /// The files, where the shelf tells them.
    ghost files: { Self → Option FileMap };

    /// How many reads failed so far. It never falls, and stands still at 2^64 - 1.
    ghost read_faults: { Self → ℕ };

    /// How many puts failed so far. It never falls, and stands still at 2^64 - 1.
    ghost put_faults: { Self → ℕ };

    /// Reads the file `name` from the byte `at` into the front of `buf`, and says how many bytes that were.
    /// It changes no file and takes no memory. `Failed` comes only where `read_faults` rose.
    fn read_at(&mut self, name: &str, at: u64, buf: &mut [u8]) -> Result<Read, Failed>
        ensures within { IfOk result (λ answer. (n : ℕ) → answer ≡ read.Got n → n ≤ length buf.new) }
        ensures gives { IfOk result (λ answer. ReadOf (files self.old) name.now at buf.old buf.new answer) }
        ensures unchanged { files self.new ≡ files self.old }
        ensures failed { OnErr result (Rose (read_faults self.old) (read_faults self.new)) }
        ensures quiet { OnOk result (read_faults self.new ≡ read_faults self.old) }
        ensures never_falls { read_faults self.old ≤ read_faults self.new }
        ensures put_faults_stay { put_faults self.new ≡ put_faults self.old };

    /// Replaces the whole file `name`, or makes it. `Failed` comes only where `put_faults` rose; that file is
    /// then anything, and all others are as before. After `OutOfMemory` all files are as before.
    fn put(&mut self, name: &str, bytes: &[u8]) -> Result<(), Fault>
        ensures leaves { PutOf (files self.old) (files self.new) name.now bytes.now result }
        ensures failed { result ≡ Err Fault.Failed → Rose (put_faults self.old) (put_faults self.new) }
        ensures quiet { result ≢ Err Fault.Failed → put_faults self.new ≡ put_faults self.old }
        ensures never_falls { put_faults self.old ≤ put_faults self.new }
        ensures read_faults_stay { read_faults self.new ≡ read_faults self.old };
}

//! Bytes that wait to be written.
ghost use Rattle.std.specs.Prelude.{◌≡◌, ◌≤◌, ◌↔◌, ◌++◌, [], drop, length, OnOk, OnErr, IsTrue};

use ir_types::OutOfMemory;
use std::alloc::Global;
use std::marker::Model;

/// Bytes that wait to be written, which contracts see as their list. Those in front go first.
#[derive(Drop)]
pub struct Pending {
    bytes: Vec<u8>,
    from: usize,
}

impl Model for Pending {
    ghost use Rattle.std.specs.Prelude.{◌≤◌, ℕ, List, drop, length};

    ghost Value = { List ℕ };

    ghost view = { λ w. drop w.from w.bytes.items };

    ghost invariant = { λ w. w.from ≤ length w.bytes.items };
}

impl Pending {
    /// None.
    pub fn new(alloc: Global) -> Pending
        ensures { result ≡ [] }
    {
        Pending {
            bytes: Vec::new(alloc),
            from: 0,
        }
    }

    /// The bytes.
    pub(crate) fn as_slice(&self) -> &[u8]
        ensures { result.now ≡ self.now }
    {
        &self.bytes.as_slice()[self.from..]
    }

    /// Adds bytes at the end.
    pub(crate) fn append(&mut self, more: &[u8]) -> Result<(), OutOfMemory>
        ensures ok { OnOk result (self.new ≡ self.old ++ more.now) }
        ensures err { OnErr result (self.new ≡ self.old) }
    {
        self.bytes.extend_from_slice(more)?;
        Ok(())
    }

    /// Takes so many from the front.
    pub(crate) fn pass(&mut self, count: usize)
        requires { count ≤ length self.old }
        ensures { self.new ≡ drop count self.old }
    {
        self.from += count;
        if self.from == self.bytes.len() {
            self.bytes.clear();
            self.from = 0;
        }
    }
}

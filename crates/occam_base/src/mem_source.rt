ghost use Rattle.std.specs.Prelude.{◌≡◌, ◌≤◌, ◌<◌, ◌↔◌, Some, length, drop, IfOk, OnOk, OnErr, IsErr};
ghost use Rattle.occam_base.specs.Counts.{Rose};
ghost use Rattle.occam_base.specs.Failing.{FailsNow, after_call};
ghost use Rattle.occam_base.specs.Streams.{SourceOf, Takes};

use crate::countdown::is_failing;
use crate::{Failed, Source};
use ir_types::Bytes;
use sqlite_items::Items as List;
use std::alloc::Global;

/// A source in memory that fails the calls it is told to.
#[derive(Debug, Drop)]
pub struct MemSource {
    bytes: Bytes,
    at: usize,
    fail: List<u64>,
    faults: u64,
    ghost within: { at ≤ length bytes },
}

impl MemSource {
    /// A source of these bytes. The calls with these numbers, counted from 1, fail.
    pub fn new(_alloc: Global, bytes: Bytes, fail: List<u64>) -> MemSource
        ensures left { drop result.at result.bytes ≡ bytes }
        ensures fail { result.fail ≡ fail }
    {
        MemSource {
            bytes,
            at: 0,
            fail,
            faults: 0,
        }
    }

    /// The bytes that are left.
    pub fn left(&self) -> &[u8]
        ensures { result.now ≡ drop self.now.at self.now.bytes }
    {
        &self.bytes.as_slice()[self.at..]
    }
}

impl Source for MemSource {
    ghost left = { λ s. Some (drop s.at s.bytes) };

    ghost faults = { λ s. s.faults };

    /// The contract of sources, and which call fails.
    fn read(&mut self, buf: &mut [u8]) -> Result<usize, Failed>
        ensures within { IfOk result (λ n. n ≤ length buf.new) }
        ensures gives { SourceOf (Some (drop self.old.at self.old.bytes)) (Some (drop self.new.at self.new.bytes)) buf.old buf.new result }
        ensures failed { OnErr result (Rose self.old.faults self.new.faults) }
        ensures quiet { OnOk result (self.new.faults ≡ self.old.faults) }
        ensures never_falls { self.old.faults ≤ self.new.faults }
        ensures fails { IsErr result ↔ FailsNow self.old.fail }
        ensures counted { self.new.fail ≡ after_call self.old.fail }
    {
        if is_failing(&mut self.fail) {
            self.faults = self.faults.saturating_add(1);
            return Err(Failed);
        }
        let count = copy_front(&self.bytes.as_slice()[self.at..], buf);
        self.at += count;
        Ok(count)
    }
}

// Copies from the front of the bytes into the front of the buffer, as far as both go.
fn copy_front(bytes: &[u8], buf: &mut [u8]) -> usize
    ensures takes { Takes bytes.now (drop result bytes.now) buf.old buf.new result }
    ensures within { result ≤ length buf.new }
{
    let count = bytes.len().min(buf.len());
    buf[..count].copy_from_slice(&bytes[..count]);
    count
}

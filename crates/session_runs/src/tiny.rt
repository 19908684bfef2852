//! A small world over a source and a sink.
ghost use Rattle.std.specs.Prelude.{◌≡◌, ◌≢◌, ◌≤◌, ℕ, [], Ok, Err, Some, IfOk, OnOk, OnErr};
ghost use Rattle.occam_base.specs.Counts.{Rose};
ghost use Rattle.session_runs.specs.Tiny.{Written, ReadFrom, number_reply, AnswersAs, BreaksAt, text_written};
ghost use Rattle.session_runs.specs.Tiny as tiny;

use crate::deed::{Deed, deed_of};
use crate::pending::Pending;
use crate::{World, WorldFault};
use ir_meaning::{Reply, ReplyVal, Wanted};
use occam_base::{Failed, Fault, Sink, Source};
use sqlite_items::Items as List;
use std::alloc::Global;

/// From so many bytes on, what waits is written.
const ROOM: usize = 4096;

/// A world that grants memory, where `putchar` and `puts` write to a sink and `getchar` reads from a source. What is
/// written waits until there is enough of it, until a byte is read, or until `flush`.
#[derive(Drop)]
pub struct TinyWorld<'w, I: Source, O: Sink> {
    source: &'w mut I,
    sink: &'w mut O,
    pending: &'w mut Pending,
}

impl<'w, I: Source, O: Sink> TinyWorld<'w, I, O> {
    /// The world over a source and a sink. What waits to be written stands in `pending`, which its caller lends.
    pub fn new(source: &'w mut I, sink: &'w mut O, pending: &'w mut Pending) -> TinyWorld<'w, I, O>
        ensures same_source { result.source.ghost_name ≡ source.entry.ghost_name }
        ensures same_sink { result.sink.ghost_name ≡ sink.entry.ghost_name }
        ensures same_pending { result.pending.ghost_name ≡ pending.entry.ghost_name }
        ensures source { result.source.now ≡ source.old }
        ensures sink { result.sink.now ≡ sink.old }
        ensures pending { result.pending.now ≡ pending.old }
    {
        TinyWorld {
            source,
            sink,
            pending,
        }
    }

    /// Writes what waits. `Failed` comes only where the sink's count rose; what it hasn't taken goes on waiting.
    pub fn flush(&mut self) -> Result<(), Fault>
        ensures same_source { self.new.source.ghost_name ≡ self.old.source.ghost_name }
        ensures same_sink { self.new.sink.ghost_name ≡ self.old.sink.ghost_name }
        ensures same_pending { self.new.pending.ghost_name ≡ self.old.pending.ghost_name }
        ensures source { self.new.source.now ≡ self.old.source.now }
        ensures written { Written (O.taken self.old.sink.now) (O.taken self.new.sink.now) self.old.pending.now self.new.pending.now [] }
        ensures none_waits { OnOk result (self.new.pending.now ≡ []) }
        ensures failed { result ≡ Err Fault.Failed → Rose (O.faults self.old.sink.now) (O.faults self.new.sink.now) }
        ensures quiet { result ≢ Err Fault.Failed → O.faults self.new.sink.now ≡ O.faults self.old.sink.now }
    {
        'writing: while !self.pending.as_slice().is_empty() {
            match self.sink.write(self.pending.as_slice()) {
                Err(fault) => return Err(fault),
                Ok(0) => return Err(Fault::Failed),
                Ok(count) => self.pending.pass(count),
            }
        }
        Ok(())
    }

    // Writes a text, or lets it wait.
    fn write(&mut self, text: &[u8]) -> Result<(), WorldFault>
        ensures same_source { self.new.source.ghost_name ≡ self.old.source.ghost_name }
        ensures same_sink { self.new.sink.ghost_name ≡ self.old.sink.ghost_name }
        ensures same_pending { self.new.pending.ghost_name ≡ self.old.pending.ghost_name }
        ensures source { self.new.source.now ≡ self.old.source.now }
        ensures written { OnOk result (Written (O.taken self.old.sink.now) (O.taken self.new.sink.now) self.old.pending.now self.new.pending.now text.now) }
        ensures broke { OnErr result (BreaksAt text.now (record { left = I.left self.old.source.now; taken = O.taken self.old.sink.now; pending = self.old.pending.now })
            (record { left = I.left self.new.source.now; taken = O.taken self.new.sink.now; pending = self.new.pending.now })) }
        ensures source_fault { result ≢ Err WorldFault.Source }
        ensures sink_rose { result ≡ Err WorldFault.Sink → Rose (O.faults self.old.sink.now) (O.faults self.new.sink.now) }
        ensures sink_stays { result ≢ Err WorldFault.Sink → O.faults self.new.sink.now ≡ O.faults self.old.sink.now }
    {
        self.pending.append(text)?;
        if self.pending.as_slice().len() >= ROOM {
            return self.pass();
        }
        Ok(())
    }

    // Writes what waits.
    fn pass(&mut self) -> Result<(), WorldFault>
        ensures same_source { self.new.source.ghost_name ≡ self.old.source.ghost_name }
        ensures same_sink { self.new.sink.ghost_name ≡ self.old.sink.ghost_name }
        ensures same_pending { self.new.pending.ghost_name ≡ self.old.pending.ghost_name }
        ensures source { self.new.source.now ≡ self.old.source.now }
        ensures written { Written (O.taken self.old.sink.now) (O.taken self.new.sink.now) self.old.pending.now self.new.pending.now [] }
        ensures none_waits { OnOk result (self.new.pending.now ≡ []) }
        ensures source_fault { result ≢ Err WorldFault.Source }
        ensures sink_rose { result ≡ Err WorldFault.Sink → Rose (O.faults self.old.sink.now) (O.faults self.new.sink.now) }
        ensures sink_stays { result ≢ Err WorldFault.Sink → O.faults self.new.sink.now ≡ O.faults self.old.sink.now }
    {
        match self.flush() {
            Ok(()) => Ok(()),
            Err(Fault::Failed) => Err(WorldFault::Sink),
            Err(Fault::OutOfMemory) => Err(WorldFault::OutOfMemory),
        }
    }

    // Reads a byte, or at the end the i32 -1.
    fn read(&mut self) -> Result<u64, WorldFault>
        ensures same_source { self.new.source.ghost_name ≡ self.old.source.ghost_name }
        ensures same_sink { self.new.sink.ghost_name ≡ self.old.sink.ghost_name }
        ensures same_pending { self.new.pending.ghost_name ≡ self.old.pending.ghost_name }
        ensures sink { self.new.sink.now ≡ self.old.sink.now }
        ensures pending { self.new.pending.now ≡ self.old.pending.now }
        ensures read { IfOk result (λ byte. ReadFrom (I.left self.old.source.now) (I.left self.new.source.now) byte) }
        ensures left { OnErr result (I.left self.new.source.now ≡ I.left self.old.source.now) }
        ensures fault { OnErr result (result ≡ Err WorldFault.Source) }
        ensures source_rose { OnErr result (Rose (I.faults self.old.source.now) (I.faults self.new.source.now)) }
        ensures source_stays { OnOk result (I.faults self.new.source.now ≡ I.faults self.old.source.now) }
    {
        let mut byte = [0; 1];
        match self.source.read(&mut byte) {
            Err(Failed) => Err(WorldFault::Source),
            Ok(0) => Ok(0xffff_ffff),
            Ok(_) => Ok(byte[0] as u64),
        }
    }
}

// The reply of a function that returns this number.
fn number_reply(alloc: Global, number: u64) -> Reply
    ensures { result ≡ tiny.number_reply number }
{
    Reply::Give {
        value: ReplyVal::Num(number),
        writes: List::new(alloc),
    }
}

impl<'w, I: Source, O: Sink> World for TinyWorld<'w, I, O> {
    ghost answers = { λ w call reply u. (u.source.ghost_name ≡ w.source.ghost_name) × (u.sink.ghost_name ≡ w.sink.ghost_name)
        × (u.pending.ghost_name ≡ w.pending.ghost_name)
        × AnswersAs (tiny.deed call) (record { left = I.left w.source.now; taken = O.taken w.sink.now; pending = w.pending.now }) reply
        (record { left = I.left u.source.now; taken = O.taken u.sink.now; pending = u.pending.now }) };

    ghost breaks = { λ w call u. (u.source.ghost_name ≡ w.source.ghost_name) × (u.sink.ghost_name ≡ w.sink.ghost_name)
        × (u.pending.ghost_name ≡ w.pending.ghost_name)
        × BreaksAt (text_written (tiny.deed call)) (record { left = I.left w.source.now; taken = O.taken w.sink.now; pending = w.pending.now })
        (record { left = I.left u.source.now; taken = O.taken u.sink.now; pending = u.pending.now }) };

    ghost source_faults = { λ w. I.faults w.source.now };

    ghost sink_faults = { λ w. O.faults w.sink.now };

    fn answer(&mut self, alloc: Global, call: &Wanted) -> Result<Option<Reply>, WorldFault> {
        match deed_of(alloc, call)? {
            Deed::Grants => Ok(Some(Reply::Grant(true))),
            Deed::Writes(text, returned) => {
                self.write(text.as_slice())?;
                Ok(Some(number_reply(alloc, returned)))
            }
            Deed::Reads => {
                self.pass()?;
                let byte = self.read()?;
                Ok(Some(number_reply(alloc, byte)))
            }
            Deed::Unknown => Ok(None),
        }
    }
}

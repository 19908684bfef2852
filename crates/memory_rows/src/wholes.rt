//! Calls that look at whole blocks, and the one that writes a byte as a reply does.
ghost use Rattle.std.specs.Prelude.{IsSome, IsTrue};
ghost use Rattle.block_memory.specs.Answers.{IsMeant};
ghost use Rattle.block_memory.specs.Blocks.{IsNamed, block_at};
ghost use Rattle.block_memory.specs.Mirrors.Spots.{HasBytes, IsLiveBlock};
ghost use Rattle.block_memory.specs.Shows as shows;

use crate::answer::Answer;
use crate::session::Session;
use block_memory::{Name, ShowFault, Val};
use ir_syntax::Sym;
use ir_types::OutOfMemory;
use std::alloc::Global;

impl Session {
    /// Whether a name is that of a block with bytes, live or ended.
    fn is_with_bytes(&self, of: &Name<Sym>) -> bool
        ensures named { IsTrue result → IsNamed self.now.memory of.now }
        ensures there { IsTrue result → IsSome (block_at self.now.memory of.now) }
    {
        match of {
            Name::Var(_) => self.knows(of),
            Name::Func(_) => false,
            Name::Made(_) => self.knows(of),
        }
    }

    /// Whether a live block with bytes stands under a name.
    fn is_live(&self, of: &Name<Sym>) -> bool
        ensures named { IsTrue result → IsNamed self.now.memory of.now }
        ensures live { IsTrue result → IsLiveBlock (block_at self.now.memory of.now) }
    {
        self.is_with_bytes(of) && self.memory.extent(of).live
    }

    /// Whether a byte of a live block stands at an offset.
    fn has_byte(&self, of: &Name<Sym>, at: u64) -> bool
        ensures { IsTrue result → HasBytes (block_at self.now.memory of.now) at 1 }
    {
        self.is_live(of) && at < self.memory.extent(of).size
    }

    /// Whether the block of a pointer may be shown.
    fn is_shown(&self, at: &Val<Sym>) -> bool
        ensures { IsTrue result → IsMeant (shows.show self.now.memory at.now) }
    {
        match at {
            Val::Num(_) => false,
            Val::Null => false,
            Val::At(of, _) => self.is_with_bytes(of),
            Val::Poison => false,
        }
    }

    /// Writes a byte of a live block.
    pub fn write(&mut self, of: &Name<Sym>, at: u64, byte: u8) -> Answer {
        if self.has_byte(of, at) {
            self.memory.write_byte(of, at, byte);
            Answer::Done
        } else {
            Answer::Meaningless
        }
    }

    /// How many bytes a block has, and whether it is live.
    pub fn extent(&self, of: &Name<Sym>) -> Answer {
        if self.knows(of) {
            Answer::Extent(self.memory.extent(of))
        } else {
            Answer::Meaningless
        }
    }

    /// Whether a live block with bytes may be written to.
    pub fn writable(&self, of: &Name<Sym>) -> Answer {
        if self.is_live(of) {
            Answer::Holds(self.memory.is_writable(of))
        } else {
            Answer::Meaningless
        }
    }

    /// The bytes of the whole block of a pointer. The error is want of memory.
    pub fn show(&self, alloc: Global, at: &Val<Sym>) -> Result<Answer, OutOfMemory> {
        if !self.is_shown(at) {
            return Ok(Answer::Meaningless);
        }
        match self.memory.show(alloc, at) {
            Ok(parts) => Ok(Answer::Bytes(parts)),
            Err(ShowFault::Undefined(cause)) => Ok(Answer::Undefined(cause)),
            Err(ShowFault::OutOfMemory) => Err(OutOfMemory),
        }
    }
}

//! What a session answers to a call.
use crate::answer::Answer;
use crate::calls::{Access, Block, Call, Look};
use crate::session::Session;
use ir_types::OutOfMemory;
use std::alloc::Global;

impl Session {
    /// What is answered where blocks are made or ended.
    fn answer_block(&mut self, alloc: Global, block: &Block) -> Result<Answer, OutOfMemory> {
        match block {
            Block::Make { size, heap, zeroed } => Ok(Answer::Made(self.make(
                alloc, *size, *heap, *zeroed,
            )?)),
            Block::End(number) => {
                self.end(*number);
                Ok(Answer::Done)
            }
            Block::Free(at) => Ok(self.free(at)),
            Block::Repeat { count, size } => {
                self.repeat(alloc, *count, *size)?;
                Ok(Answer::Done)
            }
        }
    }

    /// What is answered where bytes are read or written.
    fn answer_access(&mut self, access: &Access) -> Answer {
        match access {
            Access::Load { ty, at, align } => self.load(*ty, *align, at),
            Access::Store {
                ty,
                value,
                at,
                align,
            } => self.store(*ty, *align, value, at),
            Access::Fill { to, byte, len } => self.fill(to, byte, *len),
            Access::Copy {
                to,
                from,
                len,
                may_overlap,
            } => self.copy(to, from, *len, *may_overlap),
            Access::Write { of, at, byte } => self.write(of, *at, *byte),
        }
    }

    /// What is answered where nothing changes.
    fn answer_look(&self, alloc: Global, look: &Look) -> Result<Answer, OutOfMemory> {
        match look {
            Look::Compare { pred, a, b } => Ok(self.compare(*pred, a, b)),
            Look::Extent(of) => Ok(self.extent(of)),
            Look::Show(at) => self.show(alloc, at),
            Look::Writable(of) => Ok(self.writable(of)),
        }
    }

    /// What is answered to a call. The error is want of memory.
    pub fn answer(&mut self, alloc: Global, call: &Call) -> Result<Answer, OutOfMemory> {
        match call {
            Call::Block(block) => self.answer_block(alloc, block),
            Call::Access(access) => Ok(self.answer_access(access)),
            Call::Look(look) => self.answer_look(alloc, look),
        }
    }
}

//! Calls that make blocks and end them.
use crate::answer::Answer;
use crate::session::Session;
use block_memory::Val;
use ir_syntax::Sym;
use ir_types::OutOfMemory;
use std::alloc::Global;

impl Session {
    /// Makes a block. The error is want of memory.
    pub fn make(
        &mut self,
        alloc: Global,
        size: u32,
        heap: bool,
        zeroed: bool,
    ) -> Result<u64, OutOfMemory> {
        let number = self.memory.alloc(alloc, size, heap, zeroed)?;
        self.made = number.saturating_add(1);
        Ok(number)
    }

    /// Ends a block that was made.
    pub fn end(&mut self, number: u64) {
        self.memory.end(number);
    }

    pub fn free(&mut self, at: &Val<Sym>) -> Answer {
        Answer::of_change(self.memory.free(at))
    }

    /// Makes a block and ends it, so many times. The error is want of memory.
    pub fn repeat(&mut self, alloc: Global, count: u64, size: u32) -> Result<(), OutOfMemory> {
        for _ in 0..count {
            let number = self.make(alloc, size, false, false)?;
            self.end(number);
        }
        Ok(())
    }
}

//! Blocks that are made and ended.
ghost use Rattle.std.specs.Prelude.{◌≡◌, ◌↔◌, ◌<◌, IfOk, OnOk, OnErr, IsTrue, length, slice_get};
ghost use Rattle.block_memory.specs.Answers.{changed};
ghost use Rattle.block_memory.specs.Making as making;
ghost use Rattle.block_memory.specs.Making.{end, free, is_heap_at};

use crate::block::Block;
use crate::parts::Parts;
use crate::slot::{Slot, State};
use crate::{Memory, Name, Val};
use int_ops::Cause;
use ir_syntax::Sym;
use ir_types::OutOfMemory;
use std::alloc::Global;

impl Memory {
    /// Makes a block of a size, of poison or of zeros, which may be written to. Its number is how many were made before.
    pub fn alloc(
        &mut self,
        alloc: Global,
        size: u32,
        heap: bool,
        zeroed: bool,
    ) -> Result<u64, OutOfMemory>
        ensures number { IfOk result (λ number. number ≡ length self.old.made) }
        ensures ok { OnOk result (self.new ≡ making.alloc self.old size heap zeroed) }
        ensures err { OnErr result (self.new ≡ self.old) }
    {
        let number = self.made.len() as u64;
        let parts = Parts::new(alloc, size as usize, zeroed)?;
        let block = Block::new(alloc, parts, true, heap)?;
        self.made.push(Slot::live(block))?;
        Ok(number)
    }

    /// Ends a made block: its size is left. Where no block has the number, or it has ended, nothing changes. Takes no
    /// memory.
    pub fn end(&mut self, number: u64)
        ensures { self.new ≡ end self.old number }
    {
        let at = number as usize;
        if at >= self.made.len() {
            return;
        }
        let size = match self.made[at].state() {
            State::Live(block) => block.parts().len(),
            State::Ended(size) => *size,
        };
        self.made[at] = Slot::ended(size);
    }

    /// Whether a live block from the heap was made with this number.
    fn is_heap(&self, number: u64) -> bool
        ensures { result ≡ is_heap_at (slice_get self.now.made number) }
    {
        match self.made.get(number as usize) {
            Some(slot) => match slot.state() {
                State::Live(block) => block.is_heap(),
                State::Ended(_) => false,
            },
            None => false,
        }
    }

    /// Ends the live block from the heap whose first byte the address is, as `free` does; null is left alone. Every other
    /// value is undefined (`BadFree`), and changes nothing. Takes no memory.
    pub fn free(&mut self, at: &Val<Sym>) -> Result<(), Cause>
        ensures answer { free self.old at.now ≡ changed self.new result }
        ensures err { OnErr result (self.new ≡ self.old) }
    {
        match at {
            Val::Num(_) => Err(Cause::BadFree),
            Val::Null => Ok(()),
            Val::At(of, offset) => match of {
                Name::Var(_) => Err(Cause::BadFree),
                Name::Func(_) => Err(Cause::BadFree),
                Name::Made(number) => {
                    if *offset == 0 && self.is_heap(*number) {
                        self.end(*number);
                        Ok(())
                    } else {
                        Err(Cause::BadFree)
                    }
                }
            },
            Val::Poison => Err(Cause::BadFree),
        }
    }
}

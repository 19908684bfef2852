//! A memory, and the program that it started from.
ghost use Rattle.std.specs.Prelude.{IsTrue};
ghost use Rattle.block_memory.specs.Blocks.{IsAddress, IsKnown, IsNamed};
ghost use Rattle.memory_rows.specs.Known.{Covers};

use crate::known::is_of;
use block_memory::{Memory, Name, Val};
use ir_syntax::{Program, Sym};
use ir_types::OutOfMemory;
use std::alloc::Global;

/// A memory that calls change. A call that no typed program makes isn't made.
#[derive(Debug, Drop)]
pub struct Session {
    pub(crate) program: Program,
    pub(crate) memory: Memory,
    pub(crate) made: u64,
    ghost covers: { Covers program memory made },
}

impl Session {
    /// The memory that a program starts with. The error is want of memory.
    pub fn start(alloc: Global, program: Program) -> Result<Session, OutOfMemory> {
        let memory = Memory::start(alloc, &program)?;
        Ok(Session {
            program,
            memory,
            made: 0,
        })
    }

    pub fn program(&self) -> &Program {
        &self.program
    }

    /// Whether a name is that of a block of this memory.
    pub(crate) fn knows(&self, of: &Name<Sym>) -> bool
        ensures { IsTrue result → IsNamed self.now.memory of.now }
    {
        is_of(&self.program, self.made, of)
    }

    /// Whether a value names no other block.
    pub(crate) fn is_known(&self, value: &Val<Sym>) -> bool
        ensures { IsTrue result → IsKnown self.now.memory value.now }
    {
        match value {
            Val::Num(_) => true,
            Val::Null => true,
            Val::At(of, _) => self.knows(of),
            Val::Poison => true,
        }
    }

    /// Whether a value is no number, and names no other block.
    pub(crate) fn is_address(&self, value: &Val<Sym>) -> bool
        ensures known { IsTrue result → IsKnown self.now.memory value.now }
        ensures address { IsTrue result → IsAddress value.now }
    {
        match value {
            Val::Num(_) => false,
            Val::Null => true,
            Val::At(of, _) => self.knows(of),
            Val::Poison => true,
        }
    }
}

//! Live blocks.
ghost use Rattle.std.specs.Prelude.{◌≡◌, ◌+◌, ◌≤◌, IfOk, IsTrue, length, replicate, take, drop};
ghost use Rattle.ir_types.specs.Layout.{scalar_size};
ghost use Rattle.block_memory.specs.Blocks.{with_parts};
ghost use Rattle.block_memory.specs.Mirrors.Writing.{set_from};
ghost use Rattle.block_memory.specs.Parts.{is_value_of, parts_of};

use crate::parts::Parts;
use crate::{Part, Val};
use ir_syntax::Sym;
use ir_types::{OutOfMemory, Scalar};
use std::alloc::Global;
use std::marker::Model;

/// What a live block has.
#[derive(Debug, Drop)]
struct Held {
    parts: Parts,
    writable: bool,
    heap: bool,
}

/// A live block, in eight bytes.
#[derive(Debug, Drop)]
pub struct Block {
    held: Box<Held>,
}

impl Model for Block {
    ghost use Rattle.block_memory.specs.Blocks.{LiveBlock};

    ghost Value = { LiveBlock };

    ghost view = { λ b. record { parts = b.held.value.parts; writable = b.held.value.writable; heap = b.held.value.heap } };
}

impl Block {
    /// A block of parts.
    pub fn new(
        alloc: Global,
        parts: Parts,
        writable: bool,
        heap: bool,
    ) -> Result<Block, OutOfMemory>
        ensures { IfOk result (λ block. block ≡ record { parts = parts; writable = writable; heap = heap }) }
    {
        let held = Held {
            parts,
            writable,
            heap,
        };
        Ok(Block {
            held: Box::new(alloc, held)?,
        })
    }

    pub fn parts(&self) -> &Parts
        ensures { result.now ≡ self.now.parts }
    {
        &self.held.parts
    }

    pub fn is_writable(&self) -> bool
        ensures { result ≡ self.now.writable }
    {
        self.held.writable
    }

    pub fn is_heap(&self) -> bool
        ensures { result ≡ self.now.heap }
    {
        self.held.heap
    }

    /// Writes a value of the type at a place.
    pub fn put(&mut self, ty: Scalar, at: usize, value: &Val<Sym>)
        requires room { at + scalar_size ty ≤ length self.old.parts }
        requires of_type { IsTrue (is_value_of ty value.now) }
        ensures { self.new ≡ with_parts self.old (set_from self.old.parts at (parts_of ty value.now)) }
    {
        self.held.parts.put(ty, at, value);
    }

    /// Writes one part, so many times.
    pub fn fill(&mut self, at: usize, count: usize, part: &Part<Sym>)
        requires { at + count ≤ length self.old.parts }
        ensures { self.new ≡ with_parts self.old (set_from self.old.parts at (replicate count part.now)) }
    {
        self.held.parts.fill(at, count, part);
    }

    /// Copies bytes of another block.
    pub fn copy_from(&mut self, to: usize, other: &Block, from: usize, count: usize)
        requires room { to + count ≤ length self.old.parts }
        requires there { from + count ≤ length other.now.parts }
        ensures { self.new ≡ with_parts self.old (set_from self.old.parts to (take count (drop from other.now.parts))) }
    {
        self.held.parts.copy_from(to, other.parts(), from, count);
    }

    /// Copies bytes of this block itself.
    pub fn move_within(&mut self, to: usize, from: usize, count: usize)
        requires room { to + count ≤ length self.old.parts }
        requires there { from + count ≤ length self.old.parts }
        ensures { self.new ≡ with_parts self.old (set_from self.old.parts to (take count (drop from self.old.parts))) }
    {
        self.held.parts.move_within(to, from, count);
    }
}

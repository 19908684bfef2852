//! Copies and fills.
ghost use Rattle.std.specs.Prelude.{◌≡◌, ◌<◌, ◌&&◌, not, true, false, OnErr, IsSome, Some, replicate};
ghost use Rattle.block_memory.specs.Answers.{IsMeant, answered, changed};
ghost use Rattle.block_memory.specs.Blocks.{IsAddress, Live, LiveBlock, block_at, put_block, with_parts};
ghost use Rattle.block_memory.specs.Copies as copies;
ghost use Rattle.block_memory.specs.Fills as fills;
ghost use Rattle.block_memory.specs.Mirrors.Spots.{HasBytes, moved};
ghost use Rattle.block_memory.specs.Mirrors.Writing.{set_from};
ghost use Rattle.block_memory.specs.Parts.{same_name};
ghost use Rattle.block_memory.specs.declared.value.Part.TheVariants as part;

use crate::names::is_same;
use crate::spot::Spot;
use crate::{Memory, Name, Part, Val};
use int_ops::Cause;
use ir_syntax::Sym;

/// An access to no bytes refuses poison alone.
fn untouched(at: &Val<Sym>) -> Result<(), Cause>
    requires { IsAddress at.now }
    ensures { copies.untouched tt at.now ≡ answered result }
{
    match at {
        Val::Num(_) => unreachable!(),
        Val::Null => Ok(()),
        Val::At(_, _) => Ok(()),
        Val::Poison => Err(Cause::PoisonAddress),
    }
}

/// A number below 256 or poison, as a byte of memory.
fn byte_of(byte: &Val<Sym>) -> Part<Sym>
    requires { IsSome (fills.byte_of byte.now) }
    ensures { fills.byte_of byte.now ≡ Some result }
{
    match byte {
        Val::Num(number) => Part::Num(*number as u8),
        Val::Null => unreachable!(),
        Val::At(_, _) => unreachable!(),
        Val::Poison => Part::Poison,
    }
}

/// Whether two ranges of so many bytes in one block overlap and aren't equal.
fn ranges_overlap(count: u64, a: usize, b: usize) -> bool
    requires { 0 < count }
    ensures { result ≡ copies.ranges_overlap count a b }
{
    if a < b {
        ((b - a) as u64) < count
    } else {
        b < a && ((a - b) as u64) < count
    }
}

/// Whether a copy is refused since its ranges overlap.
fn is_refused(may_overlap: bool, count: u64, to: &Spot, from: &Spot) -> bool
    requires { 0 < count }
    ensures { result ≡ not may_overlap && (same_name to.now.of from.now.of && copies.ranges_overlap count to.now.offset from.now.offset) }
{
    !may_overlap && is_same(&to.of, &from.of) && ranges_overlap(count, to.offset, from.offset)
}

impl Memory {
    /// Copies bytes from one block to another.
    fn copy_between(&mut self, to: &Spot, from: &Spot, count: usize)
        requires apart { same_name to.now.of from.now.of ≡ false }
        requires room { HasBytes (block_at self.old to.now.of) to.now.offset count }
        requires there { HasBytes (block_at self.old from.now.of) from.now.offset count }
        ensures { self.new ≡ moved self.old to.now from.now count }
    {
        let mut block = self.take(&to.of);
        block.copy_from(to.offset, self.block(&from.of), from.offset, count);
        self.put(&to.of, block);
    }

    /// Copies bytes within one block.
    fn copy_within(&mut self, to: &Spot, from: &Spot, count: usize)
        requires together { same_name to.now.of from.now.of ≡ true }
        requires room { HasBytes (block_at self.old to.now.of) to.now.offset count }
        requires there { HasBytes (block_at self.old from.now.of) from.now.offset count }
        ensures { self.new ≡ moved self.old to.now from.now count }
    {
        let mut block = self.take(&to.of);
        block.move_within(to.offset, from.offset, count);
        self.put(&to.of, block);
    }

    /// Copies bytes, in one block or between two.
    fn move_bytes(&mut self, to: &Spot, from: &Spot, count: usize)
        requires room { HasBytes (block_at self.old to.now.of) to.now.offset count }
        requires there { HasBytes (block_at self.old from.now.of) from.now.offset count }
        ensures { self.new ≡ moved self.old to.now from.now count }
    {
        if is_same(&to.of, &from.of) {
            self.copy_within(to, from, count);
        } else {
            self.copy_between(to, from, count);
        }
    }

    /// Copies bytes from one place to another, as `llvm.memmove` does, and as `llvm.memcpy` where ranges may not overlap
    /// (LLVM Language Reference Manual, "'llvm.memcpy' Intrinsic", "'llvm.memmove' Intrinsic"): each byte written becomes
    /// what the matching byte read was before.
    ///
    /// A copy of no bytes refuses a poison address (`PoisonAddress`) and nothing else. Of a longer one the error is the
    /// first cause that holds of the place written, as of a store of bytes; then of the place read, as of a load of bytes;
    /// and last that ranges which may not overlap do so and aren't equal (`Overlap`). After an error nothing has changed.
    /// Takes no memory.
    ///
    /// The addresses are to be no numbers, and to name blocks of the program or ones that this memory made: what is asked
    /// has a meaning.
    pub fn copy_bytes(
        &mut self,
        to: &Val<Sym>,
        from: &Val<Sym>,
        len: u64,
        may_overlap: bool,
    ) -> Result<(), Cause>
        requires meant { IsMeant (copies.copy self.old to.now from.now len may_overlap) }
        ensures answer { copies.copy self.old to.now from.now len may_overlap ≡ changed self.new result }
        ensures err { OnErr result (self.new ≡ self.old) }
    {
        if len == 0 {
            untouched(to)?;
            return untouched(from);
        }
        let to = self.spot(len, 0, true, to)?;
        let from = self.spot(len, 0, false, from)?;
        if is_refused(may_overlap, len, &to, &from) {
            return Err(Cause::Overlap);
        }
        self.move_bytes(&to, &from, len as usize);
        Ok(())
    }

    /// Fills bytes, as `llvm.memset` does (LLVM Language Reference Manual, "'llvm.memset' Intrinsics"): each becomes the
    /// byte, or poison where that is poison.
    ///
    /// A fill of no bytes refuses a poison address (`PoisonAddress`) and nothing else. Of a longer one the error is the
    /// first cause that holds, as of a store of bytes. After an error nothing has changed. Takes no memory.
    ///
    /// The address is to be no number, and to name a block of the program or one that this memory made. The byte is to be
    /// poison or a number below 256. So what is asked has a meaning.
    pub fn fill(&mut self, to: &Val<Sym>, byte: &Val<Sym>, len: u64) -> Result<(), Cause>
        requires meant { IsMeant (fills.fill self.old to.now byte.now len) }
        ensures answer { fills.fill self.old to.now byte.now len ≡ changed self.new result }
        ensures err { OnErr result (self.new ≡ self.old) }
    {
        let part = byte_of(byte);
        if len == 0 {
            return untouched(to);
        }
        let spot = self.spot(len, 0, true, to)?;
        let mut block = self.take(&spot.of);
        block.fill(spot.offset, len as usize, &part);
        self.put(&spot.of, block);
        Ok(())
    }

    /// Writes one byte within a live block. Takes no memory.
    pub fn write_byte(&mut self, of: &Name<Sym>, at: u64, byte: u8)
        requires room { HasBytes (block_at self.old of.now) at 1 }
        ensures { (block : LiveBlock) → block_at self.old of.now ≡ Some (Live block) → self.new ≡ put_block self.old of.now (with_parts block (set_from block.parts at (replicate 1 (part.Num byte)))) }
    {
        let mut block = self.take(of);
        block.fill(at as usize, 1, &Part::Num(byte));
        self.put(of, block);
    }
}

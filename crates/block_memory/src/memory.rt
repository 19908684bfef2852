//! The memory of a running program.
ghost use Rattle.std.specs.Prelude.{◌≡◌, ◌↔◌, ℕ, ◌+◌, ◌^◌, ◌<◌, min, Some, None, Option, IfOk, OnOk, OnErr, IfErr, IsOk, IsTrue, length, slice_get};
ghost use Rattle.ir_syntax.specs.Programs.{ProgramData};
ghost use Rattle.block_memory.specs.Accesses.{offset_in, place_under, place_of};
ghost use Rattle.block_memory.specs.Answers.{IsMeant, answered, changed};
ghost use Rattle.block_memory.specs.Blocks.{Live, MemoryData, IsNamed, block_at, put_block};
ghost use Rattle.block_memory.specs.Making.{alloc, end, free};
ghost use Rattle.block_memory.specs.Mirrors.Spots.{IsLiveBlock, IsRoom, without, spotted};

use crate::block::Block;
use crate::names::name_again;
use crate::row::Row;
use crate::slot::{Slot, State};
use crate::spot::Spot;
use crate::{Name, Val};
use int_ops::Cause;
use ir_syntax::Sym;
use ir_types::OutOfMemory;
use std::alloc::Global;
use std::marker::Model;
use std::mem::replace;

/// The blocks of a running program: those of its variables, and those that were made.
///
/// A byte of a block takes two bytes, and addresses have a room of their own beside it. An ended block takes sixteen bytes.
#[derive(Debug, Drop)]
pub struct Memory {
    pub(crate) vars: Vec<Row>,
    pub(crate) made: Vec<Slot>,
}

impl Model for Memory {
    ghost use Rattle.block_memory.specs.Blocks.{MemoryData};

    ghost Value = { MemoryData };

    ghost view = { λ m. record { vars = m.vars.items; made = m.made.items } };
}

/// The alignment of an exponent of two. The base of each block is aligned to 16, so a greater one counts as 16.
fn alignment(exponent: u8) -> usize
    ensures value { result ≡ 2 ^ min exponent 4 }
    ensures positive { 0 < result }
{
    match exponent {
        0 => 1,
        1 => 2,
        2 => 4,
        3 => 8,
        _ => 16,
    }
}

/// The offset of an access within a block.
fn offset_in(
    block: &Block,
    bytes: u64,
    align: u8,
    writes: bool,
    offset: i64,
) -> Result<usize, Cause>
    ensures { answered result ≡ offset_in (record { bytes = bytes; align = align; writes = writes }) block.now offset }
{
    if offset < 0 {
        return Err(Cause::OutsideBlock);
    }
    let at = offset.cast_unsigned();
    let size = block.parts().len() as u64;
    if bytes > size || at > size - bytes {
        Err(Cause::OutsideBlock)
    } else if at as usize % alignment(align) != 0 {
        Err(Cause::Misaligned)
    } else if writes && !block.is_writable() {
        Err(Cause::ReadOnly)
    } else {
        Ok(at as usize)
    }
}

impl Memory {
    /// The live block under a name.
    pub(crate) fn block(&self, of: &Name<Sym>) -> &Block
        requires { IsLiveBlock (block_at self.now of.now) }
        ensures { block_at self.now of.now ≡ Some (Live result.now) }
    {
        match of {
            Name::Var(sym) => self.vars[sym.module].get(sym.item),
            Name::Func(_) => unreachable!(),
            Name::Made(number) => match self.made[*number as usize].state() {
                State::Live(block) => block,
                State::Ended(_) => unreachable!(),
            },
        }
    }

    /// Takes the live block under a name out.
    pub(crate) fn take(&mut self, of: &Name<Sym>) -> Block
        requires { IsLiveBlock (block_at self.old of.now) }
        ensures block { block_at self.old of.now ≡ Some (Live result) }
        ensures rest { self.new ≡ without self.old of.now }
    {
        match of {
            Name::Var(sym) => self.vars[sym.module].take(sym.item),
            Name::Func(_) => unreachable!(),
            Name::Made(number) => {
                match replace(&mut self.made[*number as usize], Slot::ended(0)).into_state() {
                    State::Live(block) => block,
                    State::Ended(_) => unreachable!(),
                }
            }
        }
    }

    /// Puts a block under a name.
    pub(crate) fn put(&mut self, of: &Name<Sym>, block: Block)
        requires { IsRoom self.old of.now }
        ensures { self.new ≡ put_block self.old of.now block }
    {
        match of {
            Name::Var(sym) => self.vars[sym.module].put(sym.item, block),
            Name::Func(_) => unreachable!(),
            Name::Made(number) => self.made[*number as usize] = Slot::live(block),
        }
    }

    /// Where an access to a live block goes.
    fn spot_in(
        &self,
        of: &Name<Sym>,
        bytes: u64,
        align: u8,
        writes: bool,
        offset: i64,
    ) -> Result<Spot, Cause>
        requires { IsLiveBlock (block_at self.now of.now) }
        ensures { answered result ≡ spotted (place_under self.now (record { bytes = bytes; align = align; writes = writes }) of.now offset) }
    {
        let at = offset_in(self.block(of), bytes, align, writes, offset)?;
        Ok(Spot {
            of: name_again(of),
            offset: at,
        })
    }

    /// Where an access under a name goes.
    fn spot_under(
        &self,
        of: &Name<Sym>,
        bytes: u64,
        align: u8,
        writes: bool,
        offset: i64,
    ) -> Result<Spot, Cause>
        requires { IsNamed self.now of.now }
        ensures { answered result ≡ spotted (place_under self.now (record { bytes = bytes; align = align; writes = writes }) of.now offset) }
    {
        match of {
            Name::Var(_) => self.spot_in(of, bytes, align, writes, offset),
            Name::Func(_) => Err(Cause::NotBytes),
            Name::Made(number) => match self.made[*number as usize].state() {
                State::Live(_) => self.spot_in(of, bytes, align, writes, offset),
                State::Ended(_) => Err(Cause::EndedBlock),
            },
        }
    }

    /// Where an access goes.
    pub(crate) fn spot(
        &self,
        bytes: u64,
        align: u8,
        writes: bool,
        at: &Val<Sym>,
    ) -> Result<Spot, Cause>
        requires meant { IsMeant (place_of self.now (record { bytes = bytes; align = align; writes = writes }) at.now) }
        ensures { answered result ≡ spotted (place_of self.now (record { bytes = bytes; align = align; writes = writes }) at.now) }
    {
        match at {
            Val::Num(_) => unreachable!(),
            Val::Null => Err(Cause::NullAddress),
            Val::At(of, offset) => self.spot_under(of, bytes, align, writes, *offset),
            Val::Poison => Err(Cause::PoisonAddress),
        }
    }
}

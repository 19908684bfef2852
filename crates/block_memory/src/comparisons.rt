//! Comparisons of pointers.
ghost use Rattle.std.specs.Prelude.{◌≡◌, Some};
ghost use Rattle.block_memory.specs.Answers.{IsMeant, answered};
ghost use Rattle.block_memory.specs.Blocks.{IsNamed};
ghost use Rattle.block_memory.specs.Comparisons as comparisons;

use crate::names::is_same;
use crate::slot::State;
use crate::{Memory, Name, Val};
use int_ops::{Cause, icmp};
use ir_syntax::Sym;
use ir_types::{Pred, Scalar};

/// How many bytes a block has, and whether it is live.
#[derive(Clone, Copy, Debug)]
pub struct BlockExtent {
    pub size: u64,
    pub live: bool,
}

/// The i1 of a truth.
fn truth(holds: bool) -> Val<Sym>
    ensures { result ≡ comparisons.truth holds }
{
    if holds { Val::Num(1) } else { Val::Num(0) }
}

/// Two nulls.
fn nulls(pred: Pred) -> Val<Sym>
    ensures { comparisons.nulls pred ≡ answered (Ok result) }
{
    truth(icmp(pred, Scalar::I64, 0, 0))
}

/// Two different addresses.
fn unequal(pred: Pred) -> Result<Val<Sym>, Cause>
    ensures { comparisons.unequal pred ≡ answered result }
{
    match pred {
        Pred::Eq => Ok(truth(false)),
        Pred::Ne => Ok(truth(true)),
        Pred::Ugt | Pred::Uge | Pred::Ult | Pred::Ule => Err(Cause::Incomparable),
        Pred::Sgt | Pred::Sge | Pred::Slt | Pred::Sle => Err(Cause::Incomparable),
    }
}

/// Whether an offset is from 0 to the size.
fn is_upto(offset: i64, size: u64) -> bool
    ensures { result ≡ comparisons.is_upto offset size }
{
    offset >= 0 && offset.cast_unsigned() <= size
}

/// Whether an offset is from 0 to the size less 1.
fn is_in(offset: i64, size: u64) -> bool
    ensures { result ≡ comparisons.is_in offset size }
{
    offset >= 0 && offset.cast_unsigned() < size
}

/// The order of two offsets in one block.
fn in_order(pred: Pred, size: u64, a: i64, b: i64) -> Result<Val<Sym>, Cause>
    ensures { comparisons.in_order pred size a b ≡ answered result }
{
    if a < 0 || b < 0 {
        return Err(Cause::Incomparable);
    }
    let one = a.cast_unsigned();
    let other = b.cast_unsigned();
    if one <= size && other <= size {
        Ok(truth(icmp(pred, Scalar::I64, one, other)))
    } else {
        Err(Cause::Incomparable)
    }
}

/// Two addresses in one block.
fn in_one_block(pred: Pred, size: u64, a: i64, b: i64) -> Result<Val<Sym>, Cause>
    ensures { comparisons.in_one_block pred size a b ≡ answered result }
{
    match pred {
        Pred::Eq => Ok(truth(a == b)),
        Pred::Ne => Ok(truth(a != b)),
        Pred::Ugt | Pred::Uge | Pred::Ult | Pred::Ule => in_order(pred, size, a, b),
        Pred::Sgt | Pred::Sge | Pred::Slt | Pred::Sle => Err(Cause::Incomparable),
    }
}

/// Two addresses in two blocks.
fn in_two_blocks(
    pred: Pred,
    a: i64,
    b: i64,
    one: BlockExtent,
    other: BlockExtent,
) -> Result<Val<Sym>, Cause>
    ensures { comparisons.in_two_blocks pred a b (record { size = one.size; live = one.live }) (record { size = other.size; live = other.live }) ≡ answered result }
{
    if one.live && other.live && is_in(a, one.size) && is_in(b, other.size) {
        unequal(pred)
    } else {
        Err(Cause::Incomparable)
    }
}

/// An address and null.
fn beside_null(pred: Pred, offset: i64, block: BlockExtent) -> Result<Val<Sym>, Cause>
    ensures { comparisons.beside_null pred offset (record { size = block.size; live = block.live }) ≡ answered result }
{
    if block.live && is_upto(offset, block.size) {
        unequal(pred)
    } else {
        Err(Cause::Incomparable)
    }
}

/// A number, which is no pointer, and another value.
fn number_with(other: &Val<Sym>) -> Result<Val<Sym>, Cause>
    ensures { comparisons.number_with other.now ≡ answered result }
{
    match other {
        Val::Num(_) => Err(Cause::Incomparable),
        Val::Null => Err(Cause::Incomparable),
        Val::At(_, _) => Err(Cause::Incomparable),
        Val::Poison => Ok(Val::Poison),
    }
}

impl Memory {
    /// The extent of a block; that of a function's has size 1 and is live. Takes no memory.
    ///
    /// The name is to be that of a block of the program or one that this memory made.
    pub fn extent(&self, of: &Name<Sym>) -> BlockExtent
        requires { IsNamed self.now of.now }
        ensures { comparisons.extent self.now of.now ≡ Some (record { size = result.size; live = result.live }) }
    {
        match of {
            Name::Var(sym) => BlockExtent {
                size: self.vars[sym.module].get(sym.item).parts().len() as u64,
                live: true,
            },
            Name::Func(_) => BlockExtent {
                size: 1,
                live: true,
            },
            Name::Made(number) => match self.made[*number as usize].state() {
                State::Live(block) => BlockExtent {
                    size: block.parts().len() as u64,
                    live: true,
                },
                State::Ended(size) => BlockExtent {
                    size: *size as u64,
                    live: false,
                },
            },
        }
    }

    /// Two addresses.
    fn addresses(
        &self,
        pred: Pred,
        of: &Name<Sym>,
        a: i64,
        other: &Name<Sym>,
        b: i64,
    ) -> Result<Val<Sym>, Cause>
        requires meant { IsMeant (comparisons.addresses self.now pred of.now a other.now b) }
        ensures { comparisons.addresses self.now pred of.now a other.now b ≡ answered result }
    {
        let one = self.extent(of);
        if is_same(of, other) {
            in_one_block(pred, one.size, a, b)
        } else {
            in_two_blocks(pred, a, b, one, self.extent(other))
        }
    }

    /// An address and another value.
    fn address_with(
        &self,
        pred: Pred,
        of: &Name<Sym>,
        offset: i64,
        other: &Val<Sym>,
    ) -> Result<Val<Sym>, Cause>
        requires meant { IsMeant (comparisons.address_with self.now pred of.now offset other.now) }
        ensures { comparisons.address_with self.now pred of.now offset other.now ≡ answered result }
    {
        match other {
            Val::Num(_) => Err(Cause::Incomparable),
            Val::Null => beside_null(pred, offset, self.extent(of)),
            Val::At(other, other_offset) => self.addresses(pred, of, offset, other, *other_offset),
            Val::Poison => Ok(Val::Poison),
        }
    }

    /// Null and another value.
    fn null_with(&self, pred: Pred, other: &Val<Sym>) -> Result<Val<Sym>, Cause>
        requires meant { IsMeant (comparisons.null_with self.now pred other.now) }
        ensures { comparisons.null_with self.now pred other.now ≡ answered result }
    {
        match other {
            Val::Num(_) => Err(Cause::Incomparable),
            Val::Null => Ok(nulls(pred)),
            Val::At(of, offset) => beside_null(pred, *offset, self.extent(of)),
            Val::Poison => Ok(Val::Poison),
        }
    }

    /// Whether a predicate holds of two pointers, as an i1 (LLVM Language Reference Manual, "'icmp' Instruction"). It goes by
    /// the first of these that fits.
    ///
    /// Poison gives poison. Null equals null, and each predicate holds of them that holds of equal numbers. In one block
    /// `eq` and `ne` compare the offsets, and an unsigned order compares offsets from 0 to the size. Addresses of bytes in
    /// two live blocks differ. An address from 0 to the size of a live block differs from null. Everything else is
    /// undefined (`Incomparable`). Takes no memory.
    ///
    /// The values are to name blocks of the program or ones that this memory made: what is asked has a meaning.
    pub fn compare(&self, pred: Pred, a: &Val<Sym>, b: &Val<Sym>) -> Result<Val<Sym>, Cause>
        requires meant { IsMeant (comparisons.compare self.now pred a.now b.now) }
        ensures { comparisons.compare self.now pred a.now b.now ≡ answered result }
    {
        match a {
            Val::Num(_) => number_with(b),
            Val::Null => self.null_with(pred, b),
            Val::At(of, offset) => self.address_with(pred, of, *offset, b),
            Val::Poison => Ok(Val::Poison),
        }
    }
}

//! The bytes of a live block.
ghost use Rattle.std.specs.Prelude.{◌≡◌, ◌+◌, ◌-◌, ◌<◌, ◌≤◌, ◌++◌, ℕ, IfOk, if◌then◌else◌, length, replicate, slice_get, slice_index_or, slice_set, vec_capacity};
ghost use Rattle.block_memory.specs.declared.mark.Address.TheVariants as address;
ghost use Rattle.block_memory.specs.declared.value.Part.TheVariants as part;
ghost use Rattle.block_memory.specs.Making.{first_byte};
ghost use Rattle.block_memory.specs.Mirrors.Keeping.{byte_of_address, marked, parts_kept};

use crate::mark::{Address, Mark};
use crate::{Name, Part};
use ir_syntax::Sym;
use ir_types::OutOfMemory;
use sqlite_items::at as item_at;
use std::alloc::Global;
use std::marker::Model;

/// The parts of a block, one for each byte. Two bytes are kept for each; addresses have a room of their own, which is made
/// with the block and is touched up to the last byte that was one of an address's.
#[derive(Debug, Drop)]
pub struct Parts {
    marks: Vec<Mark>,
    addresses: Vec<Address>,
}

impl Model for Parts {
    ghost use Rattle.std.specs.Prelude.{List, ◌≤◌, length, vec_capacity};
    ghost use Rattle.ir_syntax.specs.declared.symbol.Sym.{Sym};
    ghost use Rattle.block_memory.specs.declared.value.Part.{Part};

    ghost Value = { List (Part Sym) };

    ghost use Rattle.block_memory.specs.Mirrors.Keeping.{parts_kept};

    ghost view = { λ p. parts_kept p.marks.items p.addresses.items };

    ghost invariant = { λ p. length p.marks.items ≤ vec_capacity p.addresses };
}

/// Makes addresses up to a place. The room is there.
fn make_addresses(addresses: &mut Vec<Address>, at: usize)
    requires room { at < vec_capacity addresses.old }
    ensures items { addresses.new.items ≡ addresses.old.items ++ replicate (at + 1 - length addresses.old.items) address.Unused }
    ensures capacity { vec_capacity addresses.old ≤ vec_capacity addresses.new }
{
    for place in addresses.len()..at + 1 {
        match addresses.push(Address::Unused) {
            Ok(()) => {}
            Err(_) => unreachable!(),
        }
    }
}

/// Keeps an address at a place.
fn put_address(addresses: &mut Vec<Address>, at: usize, new: Address)
    requires room { at < vec_capacity addresses.old }
    ensures items { addresses.new.items ≡ slice_set (addresses.old.items ++ replicate (at + 1 - length addresses.old.items) address.Unused) at new }
    ensures capacity { vec_capacity addresses.old ≤ vec_capacity addresses.new }
{
    make_addresses(addresses, at);
    addresses[at] = new;
}

/// The k-th byte of an address.
fn address_byte(kept: Address, k: u8) -> Part<Sym>
    ensures { result ≡ byte_of_address kept k }
{
    match kept {
        Address::Unused => Part::Poison,
        Address::Var(sym, offset) => Part::Of(Name::Var(sym), offset, k),
        Address::Func(sym, offset) => Part::Of(Name::Func(sym), offset, k),
        Address::Made(number, offset) => Part::Of(Name::Made(number), offset, k),
    }
}

/// The address of an offset in a block.
fn address_of(of: &Name<Sym>, offset: i64) -> Address
    ensures { (k : ℕ) → byte_of_address result k ≡ part.Of of.now offset k }
{
    match of {
        Name::Var(sym) => Address::Var(*sym, offset),
        Name::Func(sym) => Address::Func(*sym, offset),
        Name::Made(number) => Address::Made(*number, offset),
    }
}

/// What a mark stands for, beside the address that is kept for it.
fn part_of(mark: Mark, kept: Option<Address>) -> Part<Sym>
    ensures { result ≡ marked mark kept }
{
    match mark {
        Mark::Poison => Part::Poison,
        Mark::Num(byte) => Part::Num(byte),
        Mark::Address(k) => match kept {
            Some(kept) => address_byte(kept, k),
            None => Part::Poison,
        },
    }
}

/// The part at a place.
#[tactic(auto, using(crate::proofs::Keeping::kept_at))]
fn part_at(marks: &[Mark], addresses: &[Address], at: usize) -> Part<Sym>
    requires { at < length marks.now }
    ensures { result ≡ slice_index_or (parts_kept marks.now addresses.now) at part.Poison }
{
    part_of(marks[at], item_at(addresses, at).copied())
}

/// So many marks of one kind.
fn marks_of(alloc: Global, mark: Mark, size: usize) -> Result<Vec<Mark>, OutOfMemory>
    ensures { IfOk result (λ marks. marks.items ≡ replicate size mark) }
{
    Ok(Vec::from_elem(alloc, mark, size)?)
}

impl Parts {
    /// The bytes of a new block: poison, or zeros.
    #[tactic(auto, using(crate::proofs::Keeping::kept_replicate))]
    pub fn new(alloc: Global, size: usize, zeroed: bool) -> Result<Parts, OutOfMemory>
        ensures { IfOk result (λ parts. parts ≡ replicate size (first_byte zeroed)) }
    {
        let mark = if zeroed { Mark::Num(0) } else { Mark::Poison };
        Ok(Parts {
            marks: marks_of(alloc, mark, size)?,
            addresses: Vec::with_capacity(alloc, size)?,
        })
    }

    #[tactic(auto, using(crate::proofs::Keeping::length_kept))]
    pub fn len(&self) -> usize
        ensures { result ≡ length self.now }
    {
        self.marks.len()
    }

    /// The part at a place.
    #[tactic(auto, using(crate::proofs::Keeping::length_kept))]
    pub fn get(&self, at: usize) -> Part<Sym>
        requires { at < length self.now }
        ensures { result ≡ slice_index_or self.now at part.Poison }
    {
        part_at(self.marks.as_slice(), self.addresses.as_slice(), at)
    }

    /// Sets the part at a place. Takes no memory.
    #[tactic(auto, using(crate::proofs::Keeping::length_kept, crate::proofs::Keeping::kept_set, crate::proofs::Keeping::kept_put))]
    pub fn set(&mut self, at: usize, part: &Part<Sym>)
        requires { at < length self.old }
        ensures { self.new ≡ slice_set self.old at part.now }
    {
        match part {
            Part::Poison => self.marks[at] = Mark::Poison,
            Part::Num(byte) => self.marks[at] = Mark::Num(*byte),
            Part::Of(of, offset, k) => {
                put_address(&mut self.addresses, at, address_of(of, *offset));
                self.marks[at] = Mark::Address(*k);
            }
        }
    }
}

//! Writes to the bytes of a block. None takes memory.
ghost use Rattle.std.specs.Prelude.{◌≡◌, ◌+◌, ◌≤◌, length, map, replicate, take, drop, IsTrue};
ghost use Rattle.ir_types.specs.Layout.{scalar_size};
ghost use Rattle.ir_syntax.specs.InitialBytes.{little_endian, address_bytes};
ghost use Rattle.block_memory.specs.declared.value.Part.TheVariants as part;
ghost use Rattle.block_memory.specs.Mirrors.Writing.{set_from};
ghost use Rattle.block_memory.specs.Parts.{is_value_of, parts_of};

use crate::names::name_again;
use crate::parts::Parts;
use crate::reads::bytes_of;
use crate::{Name, Part, Val};
use ir_syntax::Sym;
use ir_types::Scalar;

/// A byte of an address.
fn byte_of(of: &Name<Sym>, offset: &i64, k: u8) -> Part<Sym>
    ensures { result ≡ part.Of of.now offset.now k }
{
    Part::Of(name_again(of), *offset, k)
}

impl Parts {
    /// So many bytes of a number, the lowest first.
    fn put_number(&mut self, at: usize, count: usize, number: u64)
        requires { at + count ≤ length self.old }
        ensures { self.new ≡ set_from self.old at (map part.Num (little_endian count number)) }
    {
        let _size = self.len();
        let mut rest = number;
        for k in 0..count {
            self.set(at + k, &Part::Num((rest % 256) as u8));
            rest /= 256;
        }
    }

    /// The eight bytes of an address.
    fn put_pointer(&mut self, at: usize, of: &Name<Sym>, offset: &i64)
        requires { at + 8 ≤ length self.old }
        ensures { self.new ≡ set_from self.old at (map (part.Of of.now offset.now) address_bytes) }
    {
        let _size = self.len();
        for k in 0..8u8 {
            self.set(at + k as usize, &byte_of(of, offset, k));
        }
    }

    /// One part, so many times.
    pub fn fill(&mut self, at: usize, count: usize, part: &Part<Sym>)
        requires { at + count ≤ length self.old }
        ensures { self.new ≡ set_from self.old at (replicate count part.now) }
    {
        let _size = self.len();
        for k in 0..count {
            self.set(at + k, part);
        }
    }

    /// The bytes of a value of the type.
    pub fn put(&mut self, ty: Scalar, at: usize, value: &Val<Sym>)
        requires room { at + scalar_size ty ≤ length self.old }
        requires of_type { IsTrue (is_value_of ty value.now) }
        ensures { self.new ≡ set_from self.old at (parts_of ty value.now) }
    {
        match value {
            Val::Num(number) => self.put_number(at, bytes_of(ty), *number),
            Val::Null => self.fill(at, bytes_of(ty), &Part::Num(0)),
            Val::At(of, offset) => self.put_pointer(at, of, offset),
            Val::Poison => self.fill(at, bytes_of(ty), &Part::Poison),
        }
    }

    /// Bytes of another block.
    pub fn copy_from(&mut self, to: usize, other: &Parts, from: usize, count: usize)
        requires room { to + count ≤ length self.old }
        requires there { from + count ≤ length other.now }
        ensures { self.new ≡ set_from self.old to (take count (drop from other.now)) }
    {
        let _size = self.len();
        let _there = other.len();
        for k in 0..count {
            self.set(to + k, &other.get(from + k));
        }
    }

    /// Bytes of this block further behind, or from the same place.
    fn move_back(&mut self, to: usize, from: usize, count: usize)
        requires back { to ≤ from }
        requires there { from + count ≤ length self.old }
        ensures { self.new ≡ set_from self.old to (take count (drop from self.old)) }
    {
        let _size = self.len();
        for k in 0..count {
            let part = self.get(from + k);
            self.set(to + k, &part);
        }
    }

    /// Bytes of this block further before. The last is moved first.
    fn move_on(&mut self, to: usize, from: usize, count: usize)
        requires on { from ≤ to }
        requires room { to + count ≤ length self.old }
        ensures { self.new ≡ set_from self.old to (take count (drop from self.old)) }
    {
        let _size = self.len();
        let mut left = count;
        while left > 0 {
            left -= 1;
            let part = self.get(from + left);
            self.set(to + left, &part);
        }
    }

    /// Bytes of this block itself.
    pub fn move_within(&mut self, to: usize, from: usize, count: usize)
        requires room { to + count ≤ length self.old }
        requires there { from + count ≤ length self.old }
        ensures { self.new ≡ set_from self.old to (take count (drop from self.old)) }
    {
        if to <= from {
            self.move_back(to, from, count);
        } else {
            self.move_on(to, from, count);
        }
    }
}

//! Values in the bytes of a block.
ghost use Rattle.std.specs.Prelude.{◌≡◌, ◌+◌, ◌≤◌, ◌<◌, ◌^◌, IfSome, IsTrue, length, take, drop, slice_index_or};
ghost use Rattle.ir_types.specs.Layout.{scalar_size};
ghost use Rattle.ir_types.specs.Scalars.{is_number_of};
ghost use Rattle.ir_types.specs.declared.scalar.Scalar.TheVariants.{I1};
ghost use Rattle.block_memory.specs.Parts.{number_in, is_byte_of, are_bytes_of, address_in, integer_in, null_in, pointer_in, value_in};
ghost use Rattle.block_memory.specs.declared.value.Part.TheVariants as part;
ghost use Rattle.ir_syntax.specs.InitialBytes.{address_bytes};

use crate::names::{is_same, name_again};
use crate::parts::Parts;
use crate::{Name, Part, Val};
use ir_syntax::Sym;
use ir_types::Scalar;

/// How many bytes a value of the type has.
pub fn bytes_of(ty: Scalar) -> usize
    ensures value { result ≡ scalar_size ty }
    ensures some { 0 < result }
    ensures few { result ≤ 8 }
{
    match ty {
        Scalar::I1 => 1,
        Scalar::I8 => 1,
        Scalar::I16 => 2,
        Scalar::I32 => 4,
        Scalar::I64 => 8,
        Scalar::Ptr => 8,
    }
}

/// A number of the type as a value, and poison where there is none.
fn integer(_ty: Scalar, number: Option<u64>) -> Val<Sym>
    requires { IfSome number (λ n. IsTrue (is_number_of _ty n)) }
    ensures { result ≡ integer_in _ty number }
{
    match number {
        Some(number) => Val::Num(number),
        None => Val::Poison,
    }
}

/// The address that a byte is one of.
fn address_in(first: &Part<Sym>) -> Val<Sym>
    ensures { result ≡ address_in first.now }
{
    match first {
        Part::Poison => Val::Poison,
        Part::Num(_) => Val::Poison,
        Part::Of(of, offset, _) => Val::At(name_again(of), *offset),
    }
}

impl Parts {
    /// The number of one byte.
    #[tactic(auto, using(crate::proofs::Reading::number_in_1))]
    fn byte(&self, at: usize) -> Option<u64>
        requires { at + 1 ≤ length self.now }
        ensures value { result ≡ number_in (take 1 (drop at self.now)) }
        ensures below { IfSome result (λ number. number < 2 ^ 8) }
    {
        match self.get(at) {
            Part::Poison => None,
            Part::Num(byte) => Some(byte.into()),
            Part::Of(_, _, _) => None,
        }
    }

    /// The number of two bytes.
    #[tactic(auto, using(crate::proofs::Reading::number_in_2))]
    fn half(&self, at: usize) -> Option<u64>
        requires { at + 2 ≤ length self.now }
        ensures value { result ≡ number_in (take 2 (drop at self.now)) }
        ensures below { IfSome result (λ number. number < 2 ^ 16) }
    {
        let _size = self.len();
        match self.byte(at) {
            None => None,
            Some(low) => match self.byte(at + 1) {
                None => None,
                Some(high) => Some(low + 256 * high),
            },
        }
    }

    /// The number of four bytes.
    #[tactic(auto, using(crate::proofs::Reading::number_in_4))]
    fn word(&self, at: usize) -> Option<u64>
        requires { at + 4 ≤ length self.now }
        ensures value { result ≡ number_in (take 4 (drop at self.now)) }
        ensures below { IfSome result (λ number. number < 2 ^ 32) }
    {
        let _size = self.len();
        match self.half(at) {
            None => None,
            Some(low) => match self.half(at + 2) {
                None => None,
                Some(high) => Some(low + 65536 * high),
            },
        }
    }

    /// The number of eight bytes.
    #[tactic(auto, using(crate::proofs::Reading::number_in_8))]
    fn double(&self, at: usize) -> Option<u64>
        requires { at + 8 ≤ length self.now }
        ensures { result ≡ number_in (take 8 (drop at self.now)) }
    {
        let _size = self.len();
        match self.word(at) {
            None => None,
            Some(low) => match self.word(at + 4) {
                None => None,
                Some(high) => Some(low + 4294967296 * high),
            },
        }
    }

    /// Whether a part is a byte of an address.
    fn is_byte_of(&self, at: usize, of: &Name<Sym>, offset: &i64, k: u8) -> bool
        requires { at < length self.now }
        ensures { result ≡ is_byte_of of.now offset.now k (slice_index_or self.now at part.Poison) }
    {
        match self.get(at) {
            Part::Poison => false,
            Part::Num(_) => false,
            Part::Of(other, other_offset, j) => {
                is_same(of, &other) && *offset == other_offset && k == j
            }
        }
    }

    /// Whether eight bytes are those of an address, in order.
    #[tactic(auto, using(crate::proofs::Reading::bytes_of_next))]
    fn are_bytes_of(&self, at: usize, of: &Name<Sym>, offset: &i64) -> bool
        requires { at + 8 ≤ length self.now }
        ensures { result ≡ are_bytes_of of.now offset.now address_bytes (take 8 (drop at self.now)) }
    {
        let _size = self.len();
        for k in 0..8u8 {
            if !self.is_byte_of(at + k as usize, of, offset, k) {
                return false;
            }
        }
        true
    }

    /// Null, where eight bytes are zeros.
    fn null(&self, at: usize) -> Val<Sym>
        requires { at + 8 ≤ length self.now }
        ensures { result ≡ null_in (number_in (take 8 (drop at self.now))) }
    {
        match self.double(at) {
            Some(0) => Val::Null,
            Some(_) => Val::Poison,
            None => Val::Poison,
        }
    }

    /// The address or null of eight bytes, told from the first.
    fn pointer_from(&self, at: usize, first: &Part<Sym>) -> Val<Sym>
        requires room { at + 8 ≤ length self.now }
        requires first { slice_index_or self.now at part.Poison ≡ first.now }
        ensures { result ≡ pointer_in (take 8 (drop at self.now)) }
    {
        match first {
            Part::Poison => Val::Poison,
            Part::Num(_) => self.null(at),
            Part::Of(of, offset, _) => {
                if self.are_bytes_of(at, of, offset) {
                    address_in(first)
                } else {
                    Val::Poison
                }
            }
        }
    }

    /// The address or null of eight bytes.
    fn pointer(&self, at: usize) -> Val<Sym>
        requires { at + 8 ≤ length self.now }
        ensures { result ≡ pointer_in (take 8 (drop at self.now)) }
    {
        self.pointer_from(at, &self.get(at))
    }

    /// The i1 of a byte.
    fn bit(&self, at: usize) -> Val<Sym>
        requires { at + 1 ≤ length self.now }
        ensures { result ≡ integer_in I1 (number_in (take 1 (drop at self.now))) }
    {
        match self.byte(at) {
            Some(byte) => {
                if byte < 2 {
                    Val::Num(byte.into())
                } else {
                    Val::Poison
                }
            }
            None => Val::Poison,
        }
    }

    /// The value of the type at a place.
    pub fn value(&self, ty: Scalar, at: usize) -> Val<Sym>
        requires { at + scalar_size ty ≤ length self.now }
        ensures { result ≡ value_in ty (take (scalar_size ty) (drop at self.now)) }
    {
        match ty {
            Scalar::I1 => self.bit(at),
            Scalar::I8 => integer(ty, self.byte(at)),
            Scalar::I16 => integer(ty, self.half(at)),
            Scalar::I32 => integer(ty, self.word(at)),
            Scalar::I64 => integer(ty, self.double(at)),
            Scalar::Ptr => self.pointer(at),
        }
    }
}

//! What is kept of a byte.
use ir_syntax::Sym;
use std::mem::size_of;

/// A byte: poison, a number, or one of the eight bytes of the address that is kept beside it.
#[derive(Clone, Copy, Debug)]
pub enum Mark {
    Poison,
    Num(u8),
    Address(u8),
}

/// An address, or nothing yet.
#[derive(Clone, Copy, Debug)]
pub enum Address {
    Unused,
    Var(Sym, i64),
    Func(Sym, i64),
    Made(u64, i64),
}

/// A byte of a block takes two bytes, and the room of its address 32.
const _: () = prove!(size_of::<Mark>() == 2);

const _: () = prove!(size_of::<Address>() == 32);

//! Values, names of blocks, and bytes of memory.
use int_ops::Cause;

/// A block of memory: that of a variable, of a function, or one that was made, by its number. `N` names symbols.
#[derive(Debug, Drop)]
pub enum Name<N> {
    Var(N),
    Func(N),
    Made(u64),
}

/// A value: a number below 2^w of its integer type, null, a block with a byte offset, or poison.
#[derive(Debug, Drop)]
pub enum Val<N> {
    Num(u64),
    Null,
    At(Name<N>, i64),
    Poison,
}

/// A byte of memory: poison, a number, or one of the eight bytes of an address, by its number.
#[derive(Debug, Drop)]
pub enum Part<N> {
    Poison,
    Num(u8),
    Of(Name<N>, i64, u8),
}

/// Why a block isn't shown: the address's block is none that can be shown, or memory was refused.
#[derive(Clone, Copy, Debug, PartialEq, Eq)]
pub enum ShowFault {
    Undefined(Cause),
    OutOfMemory,
}

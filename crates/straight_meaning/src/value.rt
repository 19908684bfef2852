//! Values, parts of memory, and why a step is undefined.

/// Why a step is undefined.
#[derive(Clone, Copy, Debug, PartialEq, Eq)]
pub enum Cause {
    DivideByZero,
    DivideOverflow,
    BranchOnPoison,
    PoisonAddress,
    NullAddress,
    NotBytes,
    EndedBlock,
    OutsideBlock,
    Misaligned,
    ReadOnly,
    PoisonLength,
    Overlap,
    BadCall,
    CallType,
    PoisonToOutside,
    Incomparable,
    BadFree,
    BadReply,
    Unreachable,
}

/// A block of memory: that of a variable, of a function, or one that was made, by its number. `N` names symbols.
#[derive(Debug, Drop)]
pub enum Name<N> {
    Var(N),
    Func(N),
    Made(u64),
}

/// A value: a number below 2^w of its integer type, null, a block with a byte offset, or poison.
#[derive(Debug, Drop)]
pub enum Val<N> {
    Num(u64),
    Null,
    At(Name<N>, i64),
    Poison,
}

/// A byte of memory: poison, a number, or one byte of an address.
#[derive(Debug, Drop)]
pub enum Part<N> {
    Poison,
    Num(u8),
    Of(Name<N>, i64, u8),
}

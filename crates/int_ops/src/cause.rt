//! The causes of undefined behaviour.

/// Why an instruction's behaviour is undefined.
#[derive(Clone, Copy, Debug, PartialEq, Eq, Hash)]
pub enum Cause {
    /// A division by 0 or by poison.
    DivideByZero,
    /// `sdiv` or `srem` of the least signed value by -1.
    DivideOverflow,
    /// `br` or `switch` on poison.
    BranchOnPoison,
    /// An address is poison.
    PoisonAddress,
    /// An address is null.
    NullAddress,
    /// An address is in a function's block.
    NotBytes,
    /// The block of an address has ended.
    EndedBlock,
    /// A byte of the access is outside the block.
    OutsideBlock,
    /// The offset is no multiple of the alignment.
    Misaligned,
    /// A write to a block that isn't writable.
    ReadOnly,
    /// The length of a copy or a fill is poison.
    PoisonLength,
    /// `memcpy` with ranges that overlap and aren't equal.
    Overlap,
    /// The callee's value isn't a function's block at offset 0.
    BadCall,
    /// The callee's type differs from the written one.
    CallType,
    /// An argument of an outside or built-in function is poison.
    PoisonToOutside,
    /// Two pointers whose order isn't told.
    Incomparable,
    /// `free` of anything but null or a live heap block at offset 0.
    BadFree,
    /// A reply that an outside call can't have.
    BadReply,
    /// `unreachable` is run.
    Unreachable,
}

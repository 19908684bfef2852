//! What a step shows the outside, what it is replied, and what it answers.
use block_memory::{Part, Val};
use int_ops::Cause;
use ir_syntax::SymName;
use ir_types::{Bytes, FnType};
use sqlite_items::Items as List;

/// An argument as a call outside is shown it: its value, and where it is an address in a block with bytes, the whole
/// block and whether it may be written to.
#[derive(Debug, Drop)]
pub struct Shown {
    pub value: Val<SymName>,
    pub block: Option<List<Part<SymName>>>,
    pub writable: bool,
}

/// A call that wants a reply: the function's name, the type that the call has written, and what it is shown.
#[derive(Debug, Drop)]
pub struct Wanted {
    pub name: Bytes,
    pub fn_ty: FnType,
    pub args: List<Shown>,
}

/// What a function outside returns: nothing, a number, null, or its argument of this place, from 0, so many bytes further.
#[derive(Clone, Copy, Debug, PartialEq, Eq)]
pub enum ReplyVal {
    Void,
    Num(u64),
    Null,
    Arg(usize, i64),
}

/// A reply: whether memory is granted, or what a function returns and the bytes that it writes, each with the place of an
/// argument, from 0, and an offset in that argument's block.
#[derive(Debug, Drop)]
pub enum Reply {
    Grant(bool),
    Give {
        value: ReplyVal,
        writes: List<(usize, u64, u8)>,
    },
}

/// What came of a step.
#[derive(Debug, Drop)]
pub enum Stepped {
    /// The program goes on.
    Went,
    /// A call wants a reply; nothing has changed.
    Wants(Wanted),
    /// The root has returned.
    Returned(Option<Val<SymName>>),
    /// `exit` was called.
    Exited(u32),
    /// `abort` was called.
    Aborted,
    /// The step has no meaning.
    Undefined(Cause),
}

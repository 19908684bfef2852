//! Sessions, and what a run of one shows.
use crate::{Cause, Part, Val};
use ir_syntax::{Sym, SymName};
use ir_types::{Bytes, FnType};
use sqlite_items::Items as List;

/// An argument as an outside function is shown it: for a pointer into a block with bytes the whole block too,
/// and whether it may be written.
#[derive(Debug, Drop)]
pub struct Shown {
    pub value: Val<SymName>,
    pub block: Option<List<Part<SymName>>>,
    pub writable: bool,
}

/// A call of a function outside the program.
#[derive(Debug, Drop)]
pub struct Wanted {
    pub name: Bytes,
    pub fn_ty: FnType,
    pub args: List<Shown>,
}

/// The value of a reply: nothing, a number, null, or an argument, counted from 0, plus an offset.
#[derive(Clone, Copy, Debug, PartialEq, Eq)]
pub enum ReplyVal {
    Void,
    Num(u64),
    Null,
    Arg(usize, i64),
}

/// What the outside answers: whether memory is granted, or a value and the bytes that it writes, each as an
/// argument, an offset in its block, and the byte.
#[derive(Debug, Drop)]
pub enum Reply {
    Grant(bool),
    Give {
        value: ReplyVal,
        writes: List<(usize, u64, u8)>,
    },
}

/// How a step ends: the call goes on, it waits for a reply, the root returns, the program exits or aborts, or the
/// step is undefined.
#[derive(Debug, Drop)]
pub enum Stepped {
    Went,
    Wants(Wanted),
    Returned(Option<Val<SymName>>),
    Exited(u32),
    Aborted,
    Undefined(Cause),
}

/// A call from outside: the function and its arguments.
#[derive(Debug, Drop)]
pub struct Root {
    pub func: Sym,
    pub args: List<u64>,
}

/// The calls from outside, one after another, and the replies of the outside.
#[derive(Debug, Drop)]
pub struct Session {
    pub roots: List<Root>,
    pub replies: List<Reply>,
}

/// What the outside sees: a call with its reply, or the return of a root.
#[derive(Debug, Drop)]
pub enum Event {
    Asked(Wanted, Reply),
    Returned(Option<Val<SymName>>),
}

/// How far a run is: it goes on, waits for a reply to the function of a name, all roots have returned, the
/// program has exited or aborted, or a step was undefined.
#[derive(Debug, Drop)]
pub enum Phase {
    Running,
    Waiting(Bytes),
    Finished,
    Exited(u32),
    Aborted,
    Undefined(Cause),
}

/// A run after a number of steps: what the outside has seen, the phase, and how many steps were completed.
#[derive(Debug, Drop)]
pub struct Run {
    pub trace: List<Event>,
    pub phase: Phase,
    pub steps: u64,
}

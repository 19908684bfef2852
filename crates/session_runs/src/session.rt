//! Sessions, and what a run of one shows.
use block_memory::Val;
use int_ops::Cause;
use ir_meaning::{Reply, Wanted};
use ir_syntax::{Sym, SymName};
use ir_types::Bytes;
use sqlite_items::Items as List;

/// A call from outside: a defined function, and the numbers that it is given.
#[derive(Debug, Drop)]
pub struct Root {
    pub func: Sym,
    pub args: List<u64>,
}

/// Calls from outside, one after another, and the replies to the calls that the program makes outside, in their order.
#[derive(Debug, Drop)]
pub struct Session {
    pub roots: List<Root>,
    pub replies: List<Reply>,
}

/// What the outside sees: a call with what it was shown and its reply, or that a root has returned.
#[derive(Debug, Drop)]
pub enum Event {
    Asked(Wanted, Reply),
    Returned(Option<Val<SymName>>),
}

/// How far a run has come: it goes on, waits for a reply to a call of this name, or is at an end.
#[derive(Debug, Drop)]
pub enum Phase {
    Running,
    Waiting(Bytes),
    Finished,
    Exited(u32),
    Aborted,
    Undefined(Cause),
}

/// What a run shows: its trace, its phase, and how many steps were completed.
#[derive(Debug, Drop)]
pub struct Run {
    pub trace: List<Event>,
    pub phase: Phase,
    pub steps: u64,
}

//! What comes of one slot.
use crate::answers::Ticket;

/// The slot has the row now, by its number; it names another; or no row is left to be put there.
#[derive(Clone, Copy)]
pub(crate) enum Tried {
    Placed(usize),
    Named(usize),
    Beyond,
}

/// A row that is held open: the worker with which it is, and its number.
#[derive(Clone, Copy)]
pub(crate) struct OpenRow {
    pub(crate) worker: usize,
    pub(crate) number: u64,
}

/// What an open row is to say beside its words: who makes it, its generation, and its parent.
#[derive(Clone, Copy)]
pub(crate) struct Booking {
    pub(crate) maker: u64,
    pub(crate) generation: u64,
    pub(crate) parent: Option<Ticket>,
}

//! What the calls of a pass answer.

/// A published row, by its number.
#[derive(Clone, Copy, Debug, PartialEq, Eq)]
pub struct Ticket {
    pub place: usize,
}

/// The row was published by this call, was there already, or there is no room for it.
#[derive(Clone, Copy, Debug, PartialEq, Eq)]
pub enum Inserted {
    New(Ticket),
    There(Ticket),
    Full,
}

/// The ticket was claimed by this call, had been claimed, or isn't known as published.
#[derive(Clone, Copy, Debug, PartialEq, Eq)]
pub enum Claimed {
    Mine,
    Taken,
    NotThere,
}

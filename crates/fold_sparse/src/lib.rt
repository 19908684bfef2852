//! Folding by a worklist: the least closed assignment of a function, by a bounded number of transfers.
#![tactic(auto)]

mod groups;
mod listing;
mod look;
mod looking;
mod plan;
mod search;
mod solving;
mod standing;

pub use solving::solve;

//! Calls, from what is kept of their tokens.
#![tactic(auto)]

mod calls;

pub use calls::call;

//! Phis and terminators, from what is kept of their tokens.
#![tactic(auto)]

mod terms;

pub use terms::{br, phi, ret, switch};

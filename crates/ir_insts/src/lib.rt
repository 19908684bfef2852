//! Instructions that aren't calls, from what is kept of their tokens.
#![tactic(auto)]

mod allowed;
mod insts;

pub use insts::{alloca, bin, cast, gep, icmp, load, select, store};

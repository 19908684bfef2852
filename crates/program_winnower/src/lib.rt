//! Winnows linked programs on one thread: finds what their deployments need, and assembles the winnowed modules.
#![tactic(auto)]

mod fault;
mod needed;
mod winnowing;

pub use fault::WinnowFault;
pub use needed::needed_pieces;
pub use winnowing::winnow_program;

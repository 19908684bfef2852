//! Bodies of functions, from their tokens.
#![tactic(auto)]

mod blocks;
mod counting;
mod laws;
mod lines;
mod reading;

pub use laws::{body_is_formed, spelled_body_is_one};
pub use reading::{BodyFault, read_body, resolve_body, skip_body};

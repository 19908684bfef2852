//! Constants as a module writes them, at their types.
#![tactic(auto)]

mod addresses;
mod constants;
mod known;
mod laws;
mod offsets;
mod singles;
mod symbols;

pub use constants::read_constant;
pub use laws::constants_suit;

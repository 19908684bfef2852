//! What is left of a module of straight-line functions for one entry: what folding knows of results, which calls
//! residual bodies make, and the module of the functions and copies that they need.
#![tactic(auto)]

mod cut;
mod fact;
mod program;

pub use cut::{Ask, Cut};
pub use fact::Fact;
pub use program::StraightProgram;

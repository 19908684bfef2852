//! Assembles the winnowed modules of a set of demands, from what folding leaves of their functions.
#![tactic(auto)]

mod assembling;
mod bodies;
mod calls;
mod clashes;
mod constants;
mod copies;
mod counts;
mod declared;
mod defined;
mod grounds;
mod kept;
mod members;
mod modules;
mod notes;
mod places;
mod used;

pub use assembling::{assemble, assemble_any};
pub use winnowed_form::{ShapeFault, Winnowed};

//! The winnowed modules of a set of demands: definitions, and the types that they speak of.
#![tactic(auto)]

mod member;
mod named;
mod sort;
mod winnowed;

pub use member::Member;
pub use named::{Named, copied_demand};
pub use sort::Sort;
pub use winnowed::{ShapeFault, Winnowed};

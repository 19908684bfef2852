//! Names of a module, and what types and integers that are written with them stand for.
#![tactic(auto)]

mod integers;
mod measures;
mod places;
mod sameness;
mod scope;
mod types;

pub use integers::{extend, read_number};
pub use sameness::{same_type, same_type_is_equality};
pub use scope::{Scope, ScopeFault};
pub use types::read_type;

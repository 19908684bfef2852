//! The names of a function: its parameters, its registers and its blocks share one set.
#![tactic(auto)]

mod laws;
mod local;
mod name;
mod shapes;
mod table;

pub use laws::{locals_are_distinct, locals_are_within};
pub use local::Local;
pub use name::{decimal_name, is_decimal};
pub use table::Locals;

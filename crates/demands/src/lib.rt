//! Demands: what a deployment may need of a program, their order, the names of their copies, and their rows.
#![tactic(auto)]

mod demand;
mod laws;
mod names;
mod order;
mod pattern;
mod reading;
mod rows;

pub use demand::Demand;
pub use laws::{demands_are_ordered, names_are_apart, rows_are_apart, rows_are_read};
pub use names::clone_name;
pub use order::demand_cmp;
pub use pattern::Pattern;
pub use reading::{RowFault, demand_among, demand_of};
pub use rows::row_of;

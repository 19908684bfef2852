//! Registers that are defined before they are used, on every path.
//!
//! Most uses are settled by the block in which they stand. The others are far: the block that defines the register has to
//! be visited before on each path to the use. Far uses are asked in batches of 64 defining blocks. Each of these owns a
//! bit, and bits go from the first block along all edges but not on from their owners, until a word for each block has
//! just the bits past whose owners some path comes to it.
#![tactic(auto)]

mod batch;
mod definers;
mod far;
mod fault;
mod items;
mod order;
mod spread;

pub use fault::PathFault;
pub use items::{check_items, check_paths};

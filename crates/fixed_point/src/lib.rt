//! The least set of rows that holds the roots and is closed under needs, found on one thread.
#![tactic(auto)]

mod demands;
mod fault;
mod laws;
mod search;

pub use demands::least;
pub use fault::FixFault;
pub use laws::{
    least_set_is_one, limits_exclude, part_is_no_larger, rows_are_needed_in_any_order, rows_are_one,
};

// The most rows that may be needed.
const MOST_DEMANDS: usize = 65_536;

// The most that the sizes of the needed rows may add to.
const MOST_CODE: u64 = 8_388_608;

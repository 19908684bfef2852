//! Folding of straight-line functions: the least set of functions and copies that one entry needs, with what is known of
//! their results.
#![tactic(auto)]

mod calls;
mod cuts;
mod expander;
mod facts;
mod items;
mod laws;
mod piece;
mod root;

pub use cuts::plan;
pub use laws::{least_plan_is_a_plan, limits_are_apart, plans_are_one, root_suits};
pub use root::root_of;

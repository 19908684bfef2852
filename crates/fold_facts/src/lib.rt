//! Folding: what is known of the results of a function, once something is known of its parameters, and which of its blocks
//! are reached then.
#![tactic(auto)]

mod arithmetic;
mod assignment;
mod closed;
mod edge;
mod entered;
mod fact;
mod given;
mod instructions;
mod laws;
mod operands;
mod order;
mod phis;
mod place;
mod raising;
mod said;
mod says;
mod solving;
mod terminators;

pub use assignment::Assignment;
pub use closed::is_closed;
pub use fact::Fact;
pub use laws::{
    assignments_are_ordered, assignments_have_places, join_is_least_upper_bound,
    least_closed_is_one, order_is_partial, results_of_reached_blocks_have_facts,
    what_is_said_rises,
};
pub use place::Place;
pub use said::{Edges, Said};
pub use says::{transfer, transfer_entry};
pub use solving::solve_plain;
pub use terminators::asks;

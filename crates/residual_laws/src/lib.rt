//! What holds of residual bodies, whatever assignment of a function they are read off, and of bodies that are written with other
//! operands. Laws alone.
#![tactic(auto)]

mod laws;
mod rewritten;

pub use laws::{
    expansions_are_sound, known_parameters_are_gone, least_closed_assignments_are_led,
    residual_bodies_are_definite, residual_bodies_are_formed, residual_bodies_are_typed,
    residual_bodies_name_no_more, residual_functions_are_sound, what_stays_is_numbered_anew,
};
pub use rewritten::{
    definite_definition_is_kept, mapped_calls_fit, mapped_parts_fit, written_bodies_fit,
};

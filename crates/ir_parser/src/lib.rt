//! Reads the text of a module.
#![tactic(auto)]

mod entities;
mod fault;
mod heads;
mod items;
mod laws;
mod params;
mod reading;
mod spelling;
mod targets;
mod variables;

pub use fault::ReadFault;
pub use laws::{
    a_spelled_text_has_no_cause, a_text_spells_one_module, items_are_within_the_text,
    the_cause_is_one_entity, what_is_spelled_is_formed,
};
pub use reading::read_module;

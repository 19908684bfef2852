//! One step of a linked program, on a state that is changed in place.
#![tactic(auto)]

mod accesses;
mod branches;
mod builtins;
mod calls;
mod copying;
mod evaluating;
mod frame;
mod halt;
mod operands;
mod outside;
mod places;
mod pointers;
mod reading;
mod returns;
mod showing;
mod stack;
mod state;
mod steps;
mod table;
mod writes;

pub use ir_steps::{Reply, ReplyVal, Shown, Stepped, Wanted};
pub use state::{State, step};

//! What folding says of values holds of them when the program runs. Laws alone.
#![tactic(auto)]

mod laws;

pub use laws::{
    branches_are_as_read, instructions_are_as_read, operands_are_as_read, runs_are_as_read,
    steps_are_as_read,
};

//! The words of the command line, and the command that they are.
#![tactic(auto)]

mod numbers;
mod words;

pub use words::{Command, command_of};

//! Writes modules in their canonical text.
#![tactic(auto)]

mod blocks;
mod calls;
mod constants;
mod instructions;
mod items;
mod laws;
mod names;
mod operands;
mod terminators;
mod types;
mod words;
mod writing;

pub use crate::laws::straight_modules_are_written;
pub use crate::writing::{write_module, write_name};

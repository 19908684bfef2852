//! Whole programs from rows of a table: a manifest, and the texts of its modules, each behind a line `; --`.
#![tactic(auto)]

mod modules;
mod programs;

pub use programs::{Linked, link_row};

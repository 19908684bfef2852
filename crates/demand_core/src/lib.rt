//! Rows, which name demands in a few numbers, and what expands a row into a piece and the rows that the piece needs.
#![tactic(auto)]

mod expand;
mod row;

pub use expand::Expand;
pub use row::Row;

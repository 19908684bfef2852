//! What folding leaves of a function, and what that needs: residual bodies, and the pieces that demands expand into.
#![tactic(auto)]

mod blocks;
mod counts;
mod edges;
mod expander;
mod expansion;
mod left;
mod masks;
mod needs;
mod phis;
mod piece;
mod terminators;

pub use expander::Expander;
pub use expansion::{expand, residual};
pub use interface::roots;
pub use piece::Piece;

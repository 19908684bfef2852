//! The rule of the shared table of demands, and the steps that keep it.
#![tactic(auto)]

mod law;
mod opening;
mod seats;
mod steps;
mod view;

pub use law::{Board, Law, Place};
pub use opening::new_board;
pub use seats::{join, split};
pub use steps::{claim, draw, look, publish, read_claim, read_head, read_word, recall, store};
pub use view::View;

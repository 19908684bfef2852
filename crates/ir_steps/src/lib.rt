//! What a program does: its states, one step of it, and the law that no program gets stuck.
#![tactic(auto)]

mod laws;
mod session;

pub use laws::{never_stuck, programs_worked_by_hand};
pub use session::{Reply, ReplyVal, Shown, Stepped, Wanted};

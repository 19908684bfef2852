//! The shared table of demands: workers insert rows and claim them, without a lock and without waiting.
#![tactic(auto)]

mod answers;
mod closing;
mod home;
mod inserting;
mod meeting;
mod opening;
mod pass;
mod reading;
mod table;
mod tried;

pub use answers::{Claimed, Inserted, Ticket};
pub use closing::{CloseRefused, close};
pub use demand_play::Closed;
pub use opening::new_table;
pub use pass::Pass;
pub use table::DemandTable;

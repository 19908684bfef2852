//! The machine of the shared table: which lists of inserts and claims are legal, and the core that they make.
#![tactic(auto)]

mod answer;
mod entry;
mod event;
mod laws;
mod machine;
mod table;

pub use answer::{Core, CoreFault};
pub use entry::Closed;
pub use event::TableEvent;
pub use laws::{
    answers_exclude, entries_are_needed, history_is_legal, legal_rows_are_needed,
    settled_rows_are_all_needed,
};
pub use machine::play;

//! The meaning of a module: what one step does, what a run of a session shows, and that what winnowing leaves of
//! a module of the form means the same.
#![tactic(auto)]

mod laws;
mod session;
mod value;
mod winnowing;
mod worked;

pub use laws::{run_goes_on, step_is_determined, steps_are_counted};
pub use session::{Event, Phase, Reply, ReplyVal, Root, Run, Session, Shown, Stepped, Wanted};
pub use value::{Cause, Name, Part, Val};
pub use winnowing::{meaning_is_kept, runs_match};
pub use worked::worked_row;

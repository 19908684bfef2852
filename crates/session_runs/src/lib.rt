//! Runs of sessions: what a program does with the calls from outside and the replies that it is given.
#![tactic(auto)]

mod copies;
mod deed;
mod endings;
mod laws;
mod pending;
mod plays;
mod progress;
mod running;
mod session;
mod tiny;
mod worked;
mod world;

pub use deed::Deed;
pub use laws::run_goes_on;
pub use pending::Pending;
pub use plays::{Played, play};
pub use running::run_session;
pub use session::{Event, Phase, Root, Run, Session};
pub use tiny::TinyWorld;
pub use worked::runs_worked_by_hand;
pub use world::{World, WorldFault};

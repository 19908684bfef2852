//! Runs whole programs: loads the program of a manifest, and plays its entry with a small world over a source and a sink.
#![tactic(auto)]

mod arguments;
mod ended;
mod entering;
mod lines;
mod playing;
mod running;

pub use ended::Ended;
pub use lines::ended_line;
pub use running::run;

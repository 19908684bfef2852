//! The top call of OCCAM: words in, files and one line out.
#![tactic(auto)]

mod arguments;
mod checking;
mod counting;
mod entering;
mod job;
mod laws;
mod left;
mod line;
mod path;
mod plan;
mod print;
mod refusing;
mod running;
mod tally;
mod telling;
mod top;
mod winnowing;

pub use checking::check;
pub use job::{Checked, Job, Report};
pub use laws::outcome_is_one;
pub use program_loader::{Detail, Refusal};
pub use program_runner::{Ended, run};
pub use top::tool;
pub use winnowing::winnow;

//! Loads whole programs: reads the files of a manifest and its modules, checks the modules, and links them.
#![tactic(auto)]

mod deploying;
mod judging;
mod laws;
mod linking;
mod loading;
mod reading;
mod refusal;
mod refusing;
mod texts;
mod walking;

pub use laws::files_give_one_answer;
pub use loading::{Loaded, load};
pub use reading::{Stop, read_whole};
pub use refusal::{Detail, Refusal};

//! What functions ask of each other: which calls and names ask for which demands, the roots of a deployment, and what a
//! function calls and names in the blocks that folding reaches. Masks, by which what stays gets its new place, stand here
//! too.
#![tactic(auto)]

mod arguments;
mod asked;
mod laws;
mod mask;
mod names;
mod outgoing;
mod root;
mod seen;
mod summaries;

pub use arguments::{facts_of, known_of, known_of_args, result_count};
pub use asked::{called, item_of, named};
pub use laws::chosen_stand_at_their_ranks;
pub use mask::Mask;
pub use names::{call_of, names_of_block};
pub use outgoing::Outgoing;
pub use root::roots;
pub use summaries::summary;

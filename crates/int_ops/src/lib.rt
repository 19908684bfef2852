//! Arithmetic on the integers of the LLVM subset.
#![tactic(auto)]

mod binary;
mod bitwise;
mod casts;
mod cause;
mod comparisons;
mod divisions;
mod laws;
mod outcome;
mod shifts;
mod sums;
mod wrapping;

pub use binary::bin;
pub use casts::cast;
pub use cause::Cause;
pub use comparisons::icmp;
pub use laws::{casts_are_of_their_type, comparisons_are_bits, results_are_of_their_type};
pub use outcome::Outcome;

//! That what was read or made is written and read again.
#![tactic(auto)]

mod laws;

pub use crate::laws::{
    modules_of_one_text_are_one, what_is_spelled_is_in_range, what_is_written_is_read_again,
    what_was_read_is_read_again,
};

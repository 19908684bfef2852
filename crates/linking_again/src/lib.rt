//! What holds of winnowed modules: they are formed, typed and definite, and link again. Laws alone.
#![tactic(auto)]

mod laws;

pub use laws::{
    needed_sets_are_whole, what_is_winnowed_links_again, winnowed_modules_are_definite,
    winnowed_modules_are_formed, winnowed_modules_are_typed, winnowed_modules_can_be_linked,
    winnowed_modules_link_again,
};

//! What the named types of a module stand for.
#![tactic(auto)]

mod entities;
mod expand;
mod laws;
mod learn;
mod named;
mod uses;

pub use expand::{ExpandedTypes, expand_types};
pub use laws::type_names_fit;
pub use named::NamedType;

//! Modules of straight-line functions over i32, whose blocks add and call: which texts are of the form, and which
//! module such a text spells.
#![tactic(auto)]

mod lexeme;
mod surface;

pub use lexeme::Lexeme;
pub use surface::{Entity, Line, Value};

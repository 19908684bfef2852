//! The manifest of a deployment: a JSON text that says which modules are linked, where the program
//! is entered and with what, and which symbols the outside sees and gives.
//!
//! The text is JSON as RFC 8259 defines it and as `serde_json` reads it: the last value of a doubled
//! key counts, a number with a point or an exponent, `-0` and what is past 64 bits are floats, and
//! arrays and objects nest at most 127 deep.
#![tactic(auto)]

mod fault;
mod laws;
mod names;
mod shape;
mod text;

pub use fault::{Key, Manifest, ManifestFault, key_name};
pub use laws::text_has_one_answer;
pub use text::read_manifest;

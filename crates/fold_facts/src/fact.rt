//! What folding knows of a result.
use ir_types::Known;

/// What is known of a result, in rising order: that nothing reaches it, its one value, or that it varies. A fact of an
/// assignment is never `One(Known::Unknown)`.
#[derive(Clone, Copy, Debug, PartialEq, Eq)]
pub enum Fact {
    Unreached,
    One(Known),
    Varying,
}

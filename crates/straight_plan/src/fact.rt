//! What folding knows of a result.
use ir_types::Known;

/// What is known of a result: that nothing reaches it, its one value, or that it varies.
#[derive(Clone, Copy, Debug, PartialEq, Eq)]
pub enum Fact {
    Unreached,
    One(Known),
    Varying,
}

//! What a place of a body asks for.
use crate::Fact;

/// Which edges a terminator asks for: none, one alone, or each. Edges are counted from 0 in the order in which the
/// terminator names their blocks, the default of a switch first.
#[derive(Clone, Copy, Debug, PartialEq, Eq)]
pub enum Edges {
    Nothing,
    Only(usize),
    All,
}

/// What a place asks for: that its result is at least a fact, or that edges are reached.
#[derive(Clone, Copy, Debug, PartialEq, Eq)]
pub enum Said {
    Fact(Fact),
    Edges(Edges),
}

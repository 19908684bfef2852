//! Edges of a body.

/// An edge: the block that it goes to, and whether it is reached.
#[derive(Clone, Copy, Debug, PartialEq, Eq)]
pub(crate) struct Edge {
    pub(crate) to: usize,
    pub(crate) reached: bool,
}

//! Places of a body.

/// A place of a body: a phi or another instruction, by its block and its place among those of the block, or the
/// terminator of a block.
#[derive(Clone, Copy, Debug, PartialEq, Eq)]
pub enum Place {
    Phi(usize, usize),
    Inst(usize, usize),
    Term(usize),
}

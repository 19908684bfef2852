//! What the solver looks at.

/// What can ask for more once a fact rises: an entry of a phi, an instruction that has a result, or a terminator.
#[derive(Clone, Copy, Debug, PartialEq, Eq)]
pub(crate) enum Look {
    /// Its block, the block that its edge comes from, the phi's place in its block, the entry's among those of the phi, and
    /// the number of the phi's result.
    Entry {
        at: usize,
        from: usize,
        phi: usize,
        entry: usize,
        number: usize,
    },
    /// Its block, its place there, and the number of its result.
    Value {
        at: usize,
        k: usize,
        number: usize,
    },
    /// Its block.
    Term {
        at: usize,
    },
}

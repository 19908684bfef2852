//! What a name of a function stands for.

/// What a name of a function stands for.
#[derive(Clone, Copy, Debug, PartialEq, Eq)]
pub enum Local {
    /// A parameter, by its place.
    Param(usize),
    /// The result of an instruction, by its number among the results.
    Reg(usize),
    /// A block, by its place.
    Block(usize),
}

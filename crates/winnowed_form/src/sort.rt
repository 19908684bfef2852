//! How demands are written.

/// How a demand is written: as a function under its own name, as a copy, or as a variable.
#[derive(Clone, Copy, Debug)]
pub enum Sort {
    Original,
    Clone,
    Variable,
}

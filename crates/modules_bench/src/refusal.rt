//! Why a text isn't read.
use std::fmt;

/// Why the program has no answer.
#[derive(Clone, Copy, Debug, PartialEq, Eq)]
pub enum Refusal {
    /// The offset of the bad byte.
    BadByte { at: usize },
    /// The place of the entity.
    NotInSubset { entity: usize },
    /// Memory was refused.
    OutOfMemory,
}

impl Refusal {
    /// The exit status that stands for the refusal.
    pub fn status(self) -> u8 {
        match self {
            Refusal::OutOfMemory => 3,
            Refusal::BadByte { .. } => 20,
            Refusal::NotInSubset { .. } => 21,
        }
    }
}

impl fmt::Display for Refusal {
    fn fmt<W: fmt::Write>(&self, f: &mut fmt::Formatter<W>) -> fmt::Result {
        match self {
            Refusal::BadByte { at } => write!(f, "bad-byte {at}"),
            Refusal::NotInSubset { entity } => write!(f, "not-in-subset {entity}"),
            Refusal::OutOfMemory => write!(f, "memory"),
        }
    }
}

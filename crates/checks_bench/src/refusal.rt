//! Why nothing is checked.
use ir_types::OutOfMemory;
use std::fmt;

/// Why the program has no answer.
#[derive(Clone, Copy, Debug, PartialEq, Eq)]
pub enum Refusal {
    /// The words are no shape and size.
    Usage,
    /// Memory was refused.
    OutOfMemory,
}

impl Refusal {
    /// The exit status that stands for the refusal.
    pub fn status(self) -> u8 {
        match self {
            Refusal::Usage => 2,
            Refusal::OutOfMemory => 3,
        }
    }
}

impl fmt::Display for Refusal {
    fn fmt<W: fmt::Write>(&self, f: &mut fmt::Formatter<W>) -> fmt::Result {
        match self {
            Refusal::Usage => write!(f, "usage"),
            Refusal::OutOfMemory => write!(f, "memory"),
        }
    }
}

impl From<OutOfMemory> for Refusal {
    fn from(_fault: OutOfMemory) -> Refusal {
        Refusal::OutOfMemory
    }
}

//! Why the table isn't printed whole.
use ir_types::OutOfMemory;
use std::alloc::AllocError;
use std::io;

/// Memory was refused, or a line wasn't printed.
#[derive(Clone, Copy, Debug, PartialEq, Eq)]
pub enum Failed {
    OutOfMemory,
    Print,
}

impl From<OutOfMemory> for Failed {
    fn from(_e: OutOfMemory) -> Failed {
        Failed::OutOfMemory
    }
}

impl From<AllocError> for Failed {
    fn from(_e: AllocError) -> Failed {
        Failed::OutOfMemory
    }
}

impl From<io::Error> for Failed {
    fn from(_e: io::Error) -> Failed {
        Failed::Print
    }
}

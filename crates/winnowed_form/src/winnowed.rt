//! What assembling gives.
use ir_syntax::Module;
use ir_types::{Bytes, List, OutOfMemory};

/// The winnowed modules, one for each module of the program, and what they have: functions under their own names, copies,
/// variables, and phis, instructions and terminators.
#[derive(Debug, Drop)]
pub struct Winnowed {
    pub modules: List<Module>,
    pub originals: u64,
    pub clones: u64,
    pub globals: u64,
    pub instructions: u64,
}

/// Why a set of demands isn't assembled: a copy has the name of an item of a module, or the allocator refused memory.
#[derive(Debug, Drop)]
pub enum ShapeFault {
    NameClash { symbol: Bytes },
    OutOfMemory,
}

impl From<OutOfMemory> for ShapeFault {
    fn from(_fault: OutOfMemory) -> ShapeFault {
        ShapeFault::OutOfMemory
    }
}

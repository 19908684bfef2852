//! What is measured.
use crate::refusal::Refusal;
use ir_parser::{ReadFault, read_module, what_is_spelled_is_formed};
use ir_types::OutOfMemory;
use ir_writer::write_module;
use std::alloc::Global;

/// The sizes of a module that was read and written.
#[derive(Clone, Copy, Debug, PartialEq, Eq)]
pub struct Sizes {
    pub items: usize,
    /// The bytes of its canonical text, 0 where it wasn't written.
    pub written: usize,
}

/// The sizes of the module that a text spells. It is written where `writes` says so.
pub fn sizes_of(alloc: Global, text: &[u8], writes: bool) -> Result<Sizes, Refusal> {
    what_is_spelled_is_formed();
    let module = match read_module(alloc, text) {
        Ok(module) => module,
        Err(ReadFault::BadByte { at }) => return Err(Refusal::BadByte { at }),
        Err(ReadFault::NotInSubset { entity }) => return Err(Refusal::NotInSubset { entity }),
        Err(ReadFault::OutOfMemory) => return Err(Refusal::OutOfMemory),
    };
    let items = module.items.as_slice().len();
    if !writes {
        return Ok(Sizes { items, written: 0 });
    }
    match write_module(alloc, &module) {
        Ok(text) => Ok(Sizes {
            items,
            written: text.len(),
        }),
        Err(OutOfMemory) => Err(Refusal::OutOfMemory),
    }
}

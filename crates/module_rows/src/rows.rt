//! One text, read, written and read again.
use ir_parser::{ReadFault, read_module, what_is_spelled_is_formed};
use ir_types::{Bytes, OutOfMemory};
use ir_writer::write_module;
use std::alloc::Global;

/// What comes of a text.
#[derive(Debug, Drop)]
pub enum Row {
    /// The canonical text of the module that the text spells, which is the same when it is read and written again.
    Written(Bytes),
    /// That text is another when it is read and written again.
    Changed,
    /// The offset of the bad byte.
    BadByte { at: usize },
    /// The place of the entity.
    NotInSubset { entity: usize },
    /// Memory was refused.
    OutOfMemory,
}

/// The canonical text of the module that a text spells.
fn written(alloc: Global, text: &[u8]) -> Result<Bytes, ReadFault> {
    what_is_spelled_is_formed();
    let module = read_module(alloc, text)?;
    match write_module(alloc, &module) {
        Ok(text) => Ok(text),
        Err(OutOfMemory) => Err(ReadFault::OutOfMemory),
    }
}

/// What comes of a text that is read and written, twice.
fn twice(alloc: Global, text: &[u8]) -> Result<Row, ReadFault> {
    let once = written(alloc, text)?;
    let again = written(alloc, once.as_slice())?;
    if once == again {
        Ok(Row::Written(once))
    } else {
        Ok(Row::Changed)
    }
}

/// What comes of a text.
pub fn row_of(alloc: Global, text: &[u8]) -> Row {
    match twice(alloc, text) {
        Ok(row) => row,
        Err(ReadFault::BadByte { at }) => Row::BadByte { at },
        Err(ReadFault::NotInSubset { entity }) => Row::NotInSubset { entity },
        Err(ReadFault::OutOfMemory) => Row::OutOfMemory,
    }
}

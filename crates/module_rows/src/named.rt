//! Rows with a name: names and texts of modules, and how each is written.
use crate::rows::Row;
use ir_writer::write_name;
use std::alloc::Global;

/// Names, and what each row is called.
pub const NAMES: [(&str, &[u8]); 3] = [
    ("names, of each kind of byte", b"$a.B_9-z"),
    ("names, a decimal", b"0"),
    ("names, bytes in quotes", b"a \"\xff"),
];

/// Texts of modules, and what each row is called.
pub const TEXTS: [(&str, &[u8]); 1] = [(
    "modules, a number of i1 and a comment",
    b"@\"a b\" = global i1 1 ; comment",
)];

/// What a name is written as.
pub fn name_row(alloc: Global, name: &[u8]) -> Row {
    match write_name(alloc, name) {
        Ok(text) => Row::Written(text),
        Err(_) => Row::OutOfMemory,
    }
}

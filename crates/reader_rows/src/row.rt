//! Rows of a file: fields with ` | ` between them, in which `~0a` stands for the byte 10.
use ir_types::{Bytes, OutOfMemory};
use std::alloc::Global;

/// One line, and its fields.
#[derive(Drop)]
pub struct Row<'a> {
    pub line: &'a str,
    pub fields: Vec<&'a str>,
}

/// The rows of a text, one a line.
pub fn rows_of(alloc: Global, text: &str) -> Result<Vec<Row<'_>>, OutOfMemory> {
    let mut rows = Vec::new(alloc);
    for line in text.lines() {
        rows.push(Row {
            line,
            fields: fields_of(alloc, line)?,
        })?;
    }
    Ok(rows)
}

fn fields_of(alloc: Global, line: &str) -> Result<Vec<&str>, OutOfMemory> {
    let mut fields = Vec::new(alloc);
    for field in line.split(" | ") {
        fields.push(field)?;
    }
    Ok(fields)
}

/// The value of a hexadecimal digit.
fn digit(byte: u8) -> u8 {
    match byte {
        b'0'..=b'9' => byte - b'0',
        b'a'..=b'f' => byte - b'a' + 10,
        _ => 0,
    }
}

/// What stands before a byte of a field.
#[derive(Clone, Copy)]
enum Before {
    /// Nothing that counts.
    Nothing,
    /// `~`.
    Sign,
    /// `~` and a digit.
    Digit(u8),
}

/// Adds what one more byte of a field stands for, and says what stands before the next.
fn add(bytes: &mut Bytes, before: Before, byte: u8) -> Result<Before, OutOfMemory> {
    match before {
        Before::Sign => Ok(Before::Digit(digit(byte))),
        Before::Digit(high) => {
            bytes.push(high.wrapping_mul(16).wrapping_add(digit(byte)))?;
            Ok(Before::Nothing)
        }
        Before::Nothing => {
            if byte == b'~' {
                return Ok(Before::Sign);
            }
            bytes.push(byte)?;
            Ok(Before::Nothing)
        }
    }
}

/// The bytes that a field stands for.
pub fn bytes_of(alloc: Global, field: &str) -> Result<Bytes, OutOfMemory> {
    let mut bytes = Bytes::new(alloc);
    let mut before = Before::Nothing;
    for byte in field.as_bytes() {
        before = add(&mut bytes, before, *byte)?;
    }
    Ok(bytes)
}

/// The number that a field writes, or 0.
pub fn number_of(field: &str) -> usize {
    field.parse::<usize>().unwrap_or(0)
}

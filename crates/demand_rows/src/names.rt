//! The names of copies.
use crate::text::{items_text, pattern};
use demands::clone_name;
use ir_types::Known::{Null, Num, Unknown};
use ir_types::{Known, OutOfMemory};
use std::alloc::Global;

/// The names of copies by pattern and by function's name. Each pattern is copied before it is named.
pub fn lines(alloc: Global) -> Result<Vec<String>, OutOfMemory> {
    let table: [(&[Known], &str); 9] = [
        (&[Num(3), Unknown], "add"),
        (&[Num(7)], "cb"),
        (&[Num(255), Num(1)], "f"),
        (&[Unknown, Num(0)], "f"),
        (&[Null, Unknown], "g"),
        (&[Num(18446744073709551615)], ""),
        (&[Unknown, Unknown], "add"),
        (&[], "add"),
        (&[Unknown, Unknown, Null], "(_)h"),
    ];
    let mut lines = Vec::new(alloc);
    for (items, name) in table {
        lines.push(name_line(alloc, items, name)?)?;
    }
    Ok(lines)
}

fn name_line(alloc: Global, items: &[Known], name: &str) -> Result<String, OutOfMemory> {
    let known = items_text(alloc, items)?;
    let copied = pattern(alloc, items)?.copy(alloc)?;
    let made = clone_name(alloc, &copied, name.as_bytes())?;
    let text = str::from_utf8(made.as_slice()).unwrap_or("no text");
    Ok(format!(in alloc; "name by {known} of {name}: {text}")?)
}

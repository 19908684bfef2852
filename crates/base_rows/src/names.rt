//! Names, and names found again.
use crate::failed::Failed;
use crate::print_row;
use ir_types::is_name;
use name_table::Names;
use std::alloc::{AllocError, Global};

pub fn print_rows<R: Print + AllocGlobal>(rt: &R) -> Result<(), Failed> {
    print_tests(rt)?;
    print_places(rt)?;
    print_found(rt)
}

/// A name of so many bytes.
fn long_name(alloc: Global, len: usize) -> Result<Vec<u8>, AllocError> {
    let mut name = Vec::new(alloc);
    for _ in 0..len {
        name.push(b'a')?;
    }
    Ok(name)
}

fn print_tests<R: Print + AllocGlobal>(rt: &R) -> Result<(), Failed> {
    let longest = long_name(rt.alloc(), 4096)?;
    let too_long = long_name(rt.alloc(), 4097)?;
    print_row(rt, "name main", &is_name(b"main"))?;
    print_row(rt, "name of no bytes", &is_name(b""))?;
    print_row(rt, "name of a zero byte", &is_name(b"a\0b"))?;
    print_row(rt, "name of byte 255", &is_name(b"\xff"))?;
    print_row(rt, "name of 4096 bytes", &is_name(longest.as_slice()))?;
    print_row(rt, "name of 4097 bytes", &is_name(too_long.as_slice()))
}

fn print_places<R: Print + AllocGlobal>(rt: &R) -> Result<(), Failed> {
    let alloc = rt.alloc();
    let mut names = Names::new(alloc);
    print_row(rt, "add main", &names.add(alloc, b"main")?)?;
    print_row(rt, "add two", &names.add(alloc, b"two")?)?;
    print_row(rt, "add main again", &names.add(alloc, b"main")?)?;
    print_row(rt, "how many names", &names.len())?;
    print_row(rt, "place of two", &names.place_of(b"two"))?;
    print_row(rt, "place of gone", &names.place_of(b"gone"))
}

fn print_found<R: Print + AllocGlobal>(rt: &R) -> Result<(), Failed> {
    let alloc = rt.alloc();
    let mut names = Names::new(alloc);
    print_row(rt, "find or add main", &names.find_or_add(alloc, b"main")?)?;
    print_row(rt, "find or add two", &names.find_or_add(alloc, b"two")?)?;
    print_row(
        rt,
        "find or add main again",
        &names.find_or_add(alloc, b"main")?,
    )?;
    print_row(rt, "how many were found or added", &names.len())
}

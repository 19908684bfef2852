//! The shelf of real files.
use occam_base::{DirShelf, Shelf};
use std::fs;
use std::rt::Files;

/// What the shelf answers below a folder that it makes.
pub fn print_files<R: Files + Print + AllocGlobal>(rt: &R) -> anyhow::Result<()> {
    let mut shelf = DirShelf::new(rt);
    let mut room = [0u8; 8];
    let name = "made/on/the/way.txt";
    let answer = shelf.read_at("made/no such file", 0, &mut room);
    println!(rt; "no such file: {answer:?}")?;
    let answer = shelf.put(name, b"old and long");
    println!(rt; "put with folders on the way: {answer:?}")?;
    let answer = shelf.put(name, b"new text");
    println!(rt; "put again: {answer:?}")?;
    let answer = shelf.read_at(name, 4, &mut room);
    let text = str::from_utf8(&room[..4]).unwrap_or("no text");
    println!(rt; "read from a place: {answer:?} {text}")?;
    let answer = shelf.read_at(name, 8, &mut room);
    println!(rt; "read at the end: {answer:?}")?;
    let answer = shelf.read_at("made", 0, &mut room);
    println!(rt; "read a folder: {answer:?}")?;
    let answer = shelf.put("made", b"text");
    println!(rt; "put over a folder: {answer:?}")?;
    Ok(())
}

/// Files beside the one that is put keep what they hold, whatever their names, and nothing else is left.
pub fn print_neighbours<R: Files + Print + AllocGlobal>(rt: &R) -> anyhow::Result<()> {
    fs::create_dir_all(rt, "beside")?;
    for name in ["beside/a.ll.part", "beside/~0", "beside/a.ll"] {
        fs::write(rt, name, "of the user")?;
    }
    let mut shelf = DirShelf::new(rt);
    let answer = shelf.put("beside/a.ll", b"put");
    println!(rt; "put beside others: {answer:?}")?;
    for name in ["beside/a.ll", "beside/a.ll.part", "beside/~0"] {
        let text = fs::read_to_string(rt, name)?;
        println!(rt; "{name}: {text}")?;
    }
    let left = fs::read_to_string(rt, "beside/~1").is_ok();
    println!(rt; "a file of the put is left: {left}")?;
    Ok(())
}

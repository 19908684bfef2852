//! The fakes, and the calls that fail.
use ir_types::{Bytes, List, OutOfMemory};
use occam_base::{Act, MemShelf, MemSink, MemSource, Shelf, Sink, Source, has_distinct_names};
use std::alloc::Global;

/// A shelf of one file, of which the second read of `a` fails and the first put of `b`.
pub fn print_shelf<R: Print + AllocGlobal>(rt: &R) -> anyhow::Result<()> {
    let alloc = rt.alloc();
    let mut files = List::new(alloc);
    files.push((
        Bytes::from_slice(alloc, b"a")?,
        Bytes::from_slice(alloc, b"first")?,
    ))?;
    let mut fails = List::new(alloc);
    fails.push((Act::ReadAt, Bytes::from_slice(alloc, b"a")?, 2))?;
    fails.push((Act::Put, Bytes::from_slice(alloc, b"b")?, 1))?;
    if !has_distinct_names(files.as_slice()) {
        println!(rt; "two files of one name")?;
        return Ok(());
    }
    let mut shelf = MemShelf::new(alloc, files, fails);
    let mut room = [0u8; 3];
    for (name, at) in [("a", 3), ("a", 3), ("a", 5), ("b", 0)] {
        let answer = shelf.read_at(name, at, &mut room);
        println!(rt; "fake read of {name} from {at}: {answer:?}")?;
    }
    for (name, text) in [("b", "x"), ("b", "second"), ("a", "third")] {
        let answer = shelf.put(name, text.as_bytes());
        println!(rt; "fake put of {name}: {answer:?}")?;
    }
    for file in shelf.files() {
        let name = str::from_utf8(file.0.as_slice()).unwrap_or("no text");
        let text = str::from_utf8(file.1.as_slice()).unwrap_or("no text");
        println!(rt; "fake file {name}: {text}")?;
    }
    Ok(())
}

/// A source whose second read fails, and a sink whose first write does.
pub fn print_streams<R: Print + AllocGlobal>(rt: &R) -> anyhow::Result<()> {
    let alloc = rt.alloc();
    let text = Bytes::from_slice(alloc, b"four")?;
    let mut source = MemSource::new(alloc, text, only(alloc, 2)?);
    let mut room = [0u8; 3];
    for _ in 0..2 {
        let answer = source.read(&mut room);
        println!(rt; "fake read of a source: {answer:?}")?;
    }
    let left = str::from_utf8(source.left()).unwrap_or("no text");
    println!(rt; "fake source has left: {left}")?;
    let mut sink = MemSink::new(alloc, only(alloc, 1)?);
    for piece in ["lost", "kept"] {
        let answer = sink.write(piece.as_bytes());
        println!(rt; "fake write of {piece}: {answer:?}")?;
    }
    let taken = str::from_utf8(sink.taken()).unwrap_or("no text");
    println!(rt; "fake sink has taken: {taken}")?;
    Ok(())
}

fn only(alloc: Global, number: u64) -> Result<List<u64>, OutOfMemory> {
    let mut list = List::new(alloc);
    list.push(number)?;
    Ok(list)
}

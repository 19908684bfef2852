//! One case, and what came of it.
use crate::case::{Case, File};
use ir_types::{Bytes, List, OutOfMemory};
use occam_base::{MemShelf, MemSink, MemSource, OpenGate, has_distinct_names};
use occam_tool::tool;
use std::alloc::Global;
use std::thread::Threads;

/// The longest file that is printed whole.
const SHOWN: usize = 4_000;

/// Runs a case, and prints its name, the status, what the sink took, and the files that weren't there or have changed.
pub fn print_case<R: Print + AllocGlobal + Threads + Sync>(
    rt: &R,
    case: Case,
) -> anyhow::Result<()> {
    let alloc = rt.alloc();
    let Case {
        name,
        words,
        files,
        fails,
        given,
        source_fails,
        print_fails,
    } = case;
    println!(rt; "== {name}")?;
    let held = entries_of(alloc, &files)?;
    if !has_distinct_names(held.as_slice()) {
        println!(rt; "two files of one name")?;
        return Ok(());
    }
    let mut shelf = MemShelf::new(alloc, held, fails);
    let mut input = MemSource::new(alloc, given, source_fails);
    let mut out = MemSink::new(alloc, print_fails);
    let code = tool(
        rt,
        alloc,
        words.as_slice(),
        &mut shelf,
        &mut input,
        &mut out,
        &OpenGate,
    );
    let status = code.number();
    println!(rt; "status {status}")?;
    print!(rt; "{}", str::from_utf8(out.taken()).unwrap_or("no text\n"))?;
    for file in shelf.files() {
        if !was_there(&files, file) {
            print_file(rt, file)?;
        }
    }
    Ok(())
}

fn print_file<R: Print + AllocGlobal>(rt: &R, file: &(Bytes, Bytes)) -> anyhow::Result<()> {
    let name = str::from_utf8(file.0.as_slice()).unwrap_or("no text");
    if file.1.len() > SHOWN {
        println!(rt; "file {name}: more than {SHOWN} bytes")?;
        return Ok(());
    }
    println!(rt; "file {name}")?;
    print!(rt;
        "{}",
        str::from_utf8(file.1.as_slice()).unwrap_or("no text\n")
    )?;
    Ok(())
}

// Whether the file is one of those at the start.
fn was_there(files: &[File], file: &(Bytes, Bytes)) -> bool {
    files.iter().any(|known| {
        known.name.as_bytes() == file.0.as_slice() && known.bytes.as_slice() == file.1.as_slice()
    })
}

fn entries_of(alloc: Global, files: &[File]) -> Result<List<(Bytes, Bytes)>, OutOfMemory> {
    let mut entries = List::new(alloc);
    for file in files {
        let name = Bytes::from_slice(alloc, file.name.as_bytes())?;
        entries.push((name, Bytes::from_slice(alloc, file.bytes.as_slice())?))?;
    }
    Ok(entries)
}

//! Cases as they are written, a line for each part:
//!
//!     == NAME            a case begins
//!     words WORD ..      the words, without the program's name
//!     fails read FILE    the first read of that file fails, and likewise `put FILE`
//!     fails print N      the write of the sink with that number, from 1 on, fails, and likewise `source N` of the source's reads
//!     given TEXT         what the source holds
//!     file FILE          a file that is there, whose lines follow, each behind a bar
//!     |TEXT              a line of the file
//!     repeat N TEXT      the text so many times in the file, with a number from 0 on in the place of each `#`
//!     pad N              blanks up to so many bytes of the file
use ir_types::{Bytes, List};
use occam_base::Act;
use std::alloc::Global;

/// One call of the program, and the outside that it meets.
#[derive(Drop)]
pub struct Case {
    pub name: String,
    pub words: Vec<String>,
    pub files: Vec<File>,
    pub fails: List<(Act, Bytes, u64)>,
    pub given: Bytes,
    pub source_fails: List<u64>,
    pub print_fails: List<u64>,
}

/// A file that is there at the start.
#[derive(Drop)]
pub struct File {
    pub name: String,
    pub bytes: Vec<u8>,
}

/// The cases of a table, in its order.
pub fn cases_of(alloc: Global, table: &str) -> anyhow::Result<Vec<Case>> {
    let mut cases: Vec<Case> = Vec::new(alloc);
    for line in table.split('\n') {
        if let Some(name) = line.strip_prefix("== ") {
            cases.push(Case {
                name: String::from_str(alloc, name)?,
                words: Vec::new(alloc),
                files: Vec::new(alloc),
                fails: List::new(alloc),
                given: Bytes::new(alloc),
                source_fails: List::new(alloc),
                print_fails: List::new(alloc),
            })?;
        } else if let Some(case) = cases.last_mut() {
            add_line(alloc, case, line)?;
        }
    }
    Ok(cases)
}

// Adds what a line says to its case.
fn add_line(alloc: Global, case: &mut Case, line: &str) -> anyhow::Result<()> {
    if let Some(text) = line.strip_prefix('|') {
        if let Some(file) = case.files.last_mut() {
            file.bytes.extend_from_slice(text.as_bytes())?;
            file.bytes.push(b'\n')?;
        }
        return Ok(());
    }
    let (word, rest) = line.split_once(' ').unwrap_or((line, ""));
    match word {
        "words" => {
            for word in rest.split_whitespace() {
                case.words.push(String::from_str(alloc, word)?)?;
            }
        }
        "fails" => add_failing(alloc, case, rest)?,
        "given" => case.given.append(rest.as_bytes())?,
        "file" => case.files.push(File {
            name: String::from_str(alloc, rest)?,
            bytes: Vec::new(alloc),
        })?,
        "repeat" => {
            if let Some(file) = case.files.last_mut() {
                repeat(alloc, file, rest)?;
            }
        }
        "pad" => {
            if let Some(file) = case.files.last_mut() {
                pad(file, rest)?;
            }
        }
        _ => {}
    }
    Ok(())
}

fn add_failing(alloc: Global, case: &mut Case, text: &str) -> anyhow::Result<()> {
    let (word, name) = text.split_once(' ').unwrap_or((text, ""));
    match word {
        "read" => add_act(alloc, case, Act::ReadAt, name),
        "put" => add_act(alloc, case, Act::Put, name),
        "source" => Ok(case.source_fails.push(name.parse::<u64>()?)?),
        "print" => Ok(case.print_fails.push(name.parse::<u64>()?)?),
        _ => anyhow::bail!("what fails?"),
    }
}

fn add_act(alloc: Global, case: &mut Case, act: Act, name: &str) -> anyhow::Result<()> {
    let name = Bytes::from_slice(alloc, name.as_bytes())?;
    Ok(case.fails.push((act, name, 1))?)
}

fn repeat(alloc: Global, file: &mut File, text: &str) -> anyhow::Result<()> {
    let (count, text) = text.split_once(' ').unwrap_or((text, ""));
    for number in 0..count.parse::<u32>().unwrap_or(0) {
        let digits = format!(in alloc; "{number}")?;
        for (at, part) in text.split('#').enumerate() {
            if 0 < at {
                file.bytes.extend_from_slice(digits.as_bytes())?;
            }
            file.bytes.extend_from_slice(part.as_bytes())?;
        }
        file.bytes.push(b'\n')?;
    }
    Ok(())
}

fn pad(file: &mut File, text: &str) -> anyhow::Result<()> {
    for _ in file.bytes.len()..text.parse::<usize>().unwrap_or(0) {
        file.bytes.push(b' ')?;
    }
    Ok(())
}

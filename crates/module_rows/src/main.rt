//! Reads the texts of modules from a file, each behind a line `; ----`, writes each again and prints it, so that tables
//! of modules can be tried: `module_rows FILE` prints for each what is written, or why the text spells no module. Before
//! them it prints the rows that have names, one line for each.
#![tactic(auto)]

mod bodies;
mod named;
mod rows;

use crate::bodies::body_row;
use crate::named::{NAMES, TEXTS, name_row};
use crate::rows::{Row, row_of};
use ir_types::OutOfMemory;
use std::process::ExitCode;
use std::rt::{Env, Files};
use std::{env, fs, io};

/// What stands between two texts.
const BETWEEN: &str = "; ----\n";

fn main(rt: HostRuntime) -> ExitCode {
    match run(&rt) {
        Ok(status) => ExitCode::from(status),
        Err(_) => ExitCode::FAILURE,
    }
}

// What is returned is the exit status.
fn run<R: Env + Files + Print + AllocGlobal>(rt: &R) -> io::Result<u8> {
    let words = words_of(rt)?;
    let name = match words.as_slice() {
        [name] => name.as_str(),
        _ => {
            println!(rt; "refused usage")?;
            return Ok(2);
        }
    };
    let text = fs::read_to_string(rt, name)?;
    print_body(rt)?;
    print_names(rt)?;
    print_texts(rt)?;
    for piece in text.split(BETWEEN) {
        print!(rt; "{BETWEEN}")?;
        print_row(rt, &row_of(rt.alloc(), piece.as_bytes()))?;
    }
    Ok(0)
}

// What comes of a body between other tokens.
fn print_body<R: Print + AllocGlobal>(rt: &R) -> io::Result<()> {
    match body_row(rt.alloc()) {
        Ok(row) => println!(rt; "bodies, between other tokens: {row:?}"),
        Err(OutOfMemory) => println!(rt; "bodies, between other tokens: out of memory"),
    }
}

// How each name of the table is written.
fn print_names<R: Print + AllocGlobal>(rt: &R) -> io::Result<()> {
    for (called, name) in NAMES.iter() {
        print!(rt; "{called}: ")?;
        print_row(rt, &name_row(rt.alloc(), name))?;
        println!(rt; "")?;
    }
    Ok(())
}

// What comes of each text of the table.
fn print_texts<R: Print + AllocGlobal>(rt: &R) -> io::Result<()> {
    for (called, text) in TEXTS.iter() {
        print!(rt; "{called}: ")?;
        print_row(rt, &row_of(rt.alloc(), text))?;
    }
    Ok(())
}

// What is said of one row.
fn print_row<R: Print + AllocGlobal>(rt: &R, row: &Row) -> io::Result<()> {
    match row {
        Row::Written(bytes) => match str::from_utf8(bytes.as_slice()) {
            Ok(written) => print!(rt; "{written}"),
            Err(_) => println!(rt; "written, and no text"),
        },
        Row::Changed => println!(rt; "changed"),
        Row::BadByte { at } => println!(rt; "refused bad-byte {at}"),
        Row::NotInSubset { entity } => println!(rt; "refused not-in-subset {entity}"),
        Row::OutOfMemory => println!(rt; "refused memory"),
    }
}

// The words after the program's name.
fn words_of<R: Env + AllocGlobal>(rt: &R) -> io::Result<Vec<String>> {
    let mut words = Vec::new(rt.alloc());
    for (place, word) in env::args(rt)?.enumerate() {
        if place > 0 {
            words.push(word)?;
        }
    }
    Ok(words)
}

//! Tries the crates that read modules on the rows of a file, one a line: `reader_rows FILE` prints each row and what was
//! found for it.
#![tactic(auto)]

mod answer;
mod constants;
mod grammar;
mod lexer;
mod locals;
mod row;
mod scopes;
mod types;
mod words;

use crate::answer::Answer;
use crate::row::{Row, rows_of};
use ir_types::OutOfMemory;
use std::alloc::Global;
use std::process::ExitCode;
use std::rt::{Env, Files};
use std::{env, fs, io};

fn main(rt: HostRuntime) -> ExitCode {
    match run(&rt) {
        Ok(status) => ExitCode::from(status),
        Err(_) => ExitCode::FAILURE,
    }
}

// What is returned is the exit status.
fn run<R: Env + Files + Print + AllocGlobal>(rt: &R) -> io::Result<u8> {
    let words = words_of(rt)?;
    let name = match words.as_slice() {
        [name] => name.as_str(),
        _ => {
            println!(rt; "refused usage")?;
            return Ok(2);
        }
    };
    let text = fs::read_to_string(rt, name)?;
    match rows_of(rt.alloc(), text.as_str()) {
        Ok(rows) => print_rows(rt, rows.as_slice()),
        Err(OutOfMemory) => {
            println!(rt; "refused memory")?;
            Ok(3)
        }
    }
}

// Each row, and what is found for it.
fn print_rows<R: Print + AllocGlobal>(rt: &R, rows: &[Row]) -> io::Result<u8> {
    for row in rows {
        let line = row.line;
        match found(rt.alloc(), rows, row) {
            Ok(answer) => println!(rt; "{line}: {answer:?}")?,
            Err(OutOfMemory) => println!(rt; "{line}: out of memory")?,
        }
    }
    Ok(0)
}

// What is found for one row. The first word of a row is the crate that it tries.
fn found(alloc: Global, rows: &[Row], row: &Row) -> Result<Answer, OutOfMemory> {
    match row.fields.as_slice() {
        ["lexer", rest @ ..] => lexer::answer(alloc, rest),
        ["grammar", rest @ ..] => grammar::answer(alloc, rest),
        ["scope", rest @ ..] => scopes::answer(alloc, rest),
        ["constants", rest @ ..] => constants::answer(alloc, rest),
        ["locals", rest @ ..] => locals::answer(alloc, rest),
        ["types", rest @ ..] => types::answer(alloc, rows, rest),
        _ => Ok(Answer::NoRow),
    }
}

// The words after the program's name.
fn words_of<R: Env + AllocGlobal>(rt: &R) -> io::Result<Vec<String>> {
    let mut words = Vec::new(rt.alloc());
    for (place, word) in env::args(rt)?.enumerate() {
        if place > 0 {
            words.push(word)?;
        }
    }
    Ok(words)
}

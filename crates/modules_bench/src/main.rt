//! Reads the text of a module from a file and writes the module, so that time and memory can be measured:
//! `modules_bench FILE` prints one line, `items=N written=M` for a module of so many items whose canonical text has so
//! many bytes, or why the text spells none. `modules_bench read FILE` reads alone, and prints `written=0`.
#![tactic(auto)]

mod reading;
mod refusal;

use crate::reading::sizes_of;
use crate::refusal::Refusal;
use std::process::ExitCode;
use std::rt::{Env, Files};
use std::{env, fs, io};

fn main(rt: HostRuntime) -> ExitCode {
    match run(&rt) {
        Ok(status) => ExitCode::from(status),
        Err(_) => ExitCode::FAILURE,
    }
}

// The line is printed, and what is returned is the exit status.
fn run<R: Env + Files + Print + AllocGlobal>(rt: &R) -> io::Result<u8> {
    let words = words_of(rt)?;
    let (name, writes) = match words.as_slice() {
        [name] => (name.as_str(), true),
        [word, name] if word.as_str() == "read" => (name.as_str(), false),
        _ => {
            println!(rt; "refused usage")?;
            return Ok(2);
        }
    };
    let text = fs::read_to_string(rt, name)?;
    match sizes_of(rt.alloc(), text.as_bytes(), writes) {
        Ok(sizes) => {
            let items = sizes.items;
            let written = sizes.written;
            println!(rt; "items={items} written={written}")?;
            Ok(0)
        }
        Err(refusal) => {
            println!(rt; "refused {refusal}")?;
            Ok(refusal.status())
        }
    }
}

// The words after the program's name.
fn words_of<R: Env + AllocGlobal>(rt: &R) -> io::Result<Vec<String>> {
    let mut words = Vec::new(rt.alloc());
    for (place, word) in env::args(rt)?.enumerate() {
        if place > 0 {
            words.push(word)?;
        }
    }
    Ok(words)
}

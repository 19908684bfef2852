//! The program `occam`: the top call over the current folder, standard input and standard output.
#![tactic(auto)]

use occam_base::{Code, DirShelf, OpenGate, StdSink, StdSource};
use occam_tool::tool;
use std::process::ExitCode;
use std::rt::{Env, Files};
use std::thread::Threads;
use std::{env, io};

fn main(rt: HostRuntime) -> ExitCode {
    ExitCode::from(run(&rt).number())
}

// Words that aren't UTF-8 are no command, as no words are.
fn run<R: Files + Env + Input + Print + AllocGlobal + Threads + Sync>(rt: &R) -> Code {
    match words_of(rt) {
        Ok(words) => run_words(rt, words.as_slice()),
        Err(e) => if e.kind() == io::ErrorKind::OutOfMemory {
            Code::OutOfMemory
        } else {
            run_words(rt, &[])
        },
    }
}

fn run_words<R: Files + Input + Print + AllocGlobal + Threads + Sync>(
    rt: &R,
    words: &[String],
) -> Code {
    let mut shelf = DirShelf::new(rt);
    let mut input = StdSource::new(rt);
    let mut out = StdSink::new(rt);
    tool(
        rt,
        rt.alloc(),
        words,
        &mut shelf,
        &mut input,
        &mut out,
        &OpenGate,
    )
}

// The words after the program's name.
fn words_of<R: Env + AllocGlobal>(rt: &R) -> io::Result<Vec<String>> {
    let mut words = Vec::new(rt.alloc());
    for (place, word) in env::args(rt)?.enumerate() {
        if place > 0 {
            words.push(word)?;
        }
    }
    Ok(words)
}

//! Calls the outside by name and prints each answer: the adapters over real files of the folder that it runs in, standard
//! input and output, and the fakes with the calls that fail.
#![tactic(auto)]

mod fakes;
mod files;

use crate::fakes::{print_shelf, print_streams};
use crate::files::{print_files, print_neighbours};
use occam_base::{Code, Gate, OpenGate, Sink, Source, StdSink, StdSource};
use std::process::ExitCode;
use std::rt::Files;

fn main(rt: HostRuntime) -> ExitCode {
    match run(&rt) {
        Ok(()) => ExitCode::SUCCESS,
        Err(_) => ExitCode::FAILURE,
    }
}

fn run<R: Files + Input + Print + AllocGlobal>(rt: &R) -> anyhow::Result<()> {
    print_files(rt)?;
    print_neighbours(rt)?;
    print_standard(rt)?;
    print_shelf(rt)?;
    print_streams(rt)?;
    OpenGate.reached(0, 1);
    let last = Code::NameClash.number();
    println!(rt; "last status: {last}")?;
    Ok(())
}

// Standard input is empty here.
fn print_standard<R: Input + Print + AllocGlobal>(rt: &R) -> anyhow::Result<()> {
    let mut room = [0u8; 8];
    let mut out = StdSink::new(rt);
    let wrote = out.write(b"written by the sink\n");
    println!(rt; "write: {wrote:?}")?;
    let mut input = StdSource::new(rt);
    let read = input.read(&mut room);
    println!(rt; "read at the end of input: {read:?}")?;
    Ok(())
}

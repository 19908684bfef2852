//! Inserts rows and claims them, so that time can be measured: `table_bench HOW WORKERS`, where `HOW` is `table`, a shared
//! table, `empty`, such tables without a row, or `set`, a set behind a lock on one thread. It goes ten rounds over 60,000 rows,
//! of which half are each worker's, and prints a line.
#![tactic(auto)]

ghost use Rattle.std.specs.Prelude.{◌<◌, ◌≤◌};

mod locked;
mod shared;

use ir_types::OutOfMemory;
use std::env;
use std::process::ExitCode;
use std::rt::Env;
use std::sync::Wait;
use std::thread::Threads;

fn main(rt: HostRuntime) -> ExitCode {
    match run(&rt) {
        Ok(()) => ExitCode::SUCCESS,
        Err(_) => ExitCode::FAILURE,
    }
}

fn run<R: Env + Print + AllocGlobal + Threads + Wait + Sync>(rt: &R) -> anyhow::Result<()> {
    let mut how = String::new(rt.alloc());
    let mut workers = 1;
    for (place, word) in env::args(rt)?.enumerate() {
        match place {
            1 => how = word,
            2 => workers = workers_of(word.as_str()),
            _ => {}
        }
    }
    match rounds(rt, how.as_str(), workers) {
        Ok(()) => println!(rt; "{how} {workers}")?,
        Err(OutOfMemory) => println!(rt; "refused memory")?,
    }
    Ok(())
}

fn workers_of(word: &str) -> usize
    ensures { (0 < result) × (result ≤ 64) }
{
    match word {
        "2" => 2,
        "4" => 4,
        _ => 1,
    }
}

fn rounds<R: AllocGlobal + Threads + Wait + Sync>(
    rt: &R,
    how: &str,
    workers: usize,
) -> Result<(), OutOfMemory>
    requires few { (0 < workers) × (workers ≤ 64) }
{
    for _ in 0..10 {
        match how {
            "table" => shared::round(rt, workers, 60000)?,
            "set" => locked::round(rt, 60000)?,
            _ => shared::round(rt, workers, 0)?,
        }
    }
    Ok(())
}

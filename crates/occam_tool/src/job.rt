//! What a command is asked to do, and what it answers.
use ir_types::Bytes;

/// The work of `winnow`: the manifest's file, the folder for the written modules, and how many threads.
#[derive(Debug, Drop)]
pub struct Job {
    pub manifest: Bytes,
    pub outdir: Bytes,
    pub workers: usize,
}

/// What winnowing left: modules, functions under their own name, copies of functions, variables, the
/// instructions and terminators that are written, and those of the program as it was.
#[derive(Clone, Copy, Debug, PartialEq, Eq)]
pub struct Report {
    pub modules: u64,
    pub originals: u64,
    pub clones: u64,
    pub globals: u64,
    pub instructions: u64,
    pub before: u64,
}

/// What checking counted: modules, definitions of functions and of variables, and phis, instructions and terminators.
#[derive(Clone, Copy, Debug, PartialEq, Eq)]
pub struct Checked {
    pub modules: u64,
    pub functions: u64,
    pub globals: u64,
    pub instructions: u64,
}

//! Linking what a row holds.
use crate::modules::modules_of;
use ir_syntax::Program;
use linker::{LinkFault, link};
use manifest::read_manifest;
use std::alloc::Global;

/// What linking makes of a row.
#[derive(Debug, Drop)]
pub enum Linked {
    Program(Program),
    Refused(LinkFault),
    /// A module isn't in the subset, or one of the checks refuses it.
    NotSound,
    /// The manifest is none: why.
    NoManifest(String),
}

/// Links the modules of a row for its manifest, which is the row's first line. What stands between that line and the first
/// text of a module isn't read. The error is want of memory.
pub fn link_row(alloc: Global, row: &str) -> anyhow::Result<Linked> {
    let (text, _modules) = row.split_once('\n').unwrap_or((row, ""));
    let manifest = match read_manifest(alloc, text.as_bytes()) {
        Ok(manifest) => manifest,
        Err(fault) => return Ok(Linked::NoManifest(format!(in alloc; "{fault}")?)),
    };
    match modules_of(alloc, row)? {
        Some(modules) => match link(alloc, modules, &manifest) {
            Ok(program) => Ok(Linked::Program(program)),
            Err(fault) => Ok(Linked::Refused(fault)),
        },
        None => Ok(Linked::NotSound),
    }
}

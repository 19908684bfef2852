//! Reads a table of manifests, a line each: a name, a tab and the text. It prints for each what `read_manifest` answers,
//! with all parts of a manifest that is accepted: `manifest_rows FILE`.
#![tactic(auto)]

mod parts;

use crate::parts::parts_of;
use manifest::{Key, ManifestFault, key_name, read_manifest};
use std::process::ExitCode;
use std::rt::{Env, Files};
use std::{env, fs};

const KEYS: [Key; 7] = [
    Key::Whole,
    Key::Version,
    Key::Modules,
    Key::Entry,
    Key::Exports,
    Key::Outside,
    Key::Other,
];

/// Texts that are no UTF-8.
const NO_TEXTS: [(&str, &[u8]); 3] = [
    ("a byte that is no text", b"[\"\xff\"]"),
    ("a byte behind the value", b"{}\xc3"),
    ("half a pair of surrogates", b"[\"\xed\xa0\x80\"]"),
];

fn main(rt: HostRuntime) -> ExitCode {
    match run(&rt) {
        Ok(()) => ExitCode::SUCCESS,
        Err(_) => ExitCode::FAILURE,
    }
}

fn run<R: Env + Files + Print + AllocGlobal>(rt: &R) -> anyhow::Result<()> {
    for key in KEYS {
        let name = key_name(key);
        let fault = ManifestFault::BadManifest { key };
        println!(rt; "key {name}: {fault}")?;
    }
    for (name, text) in NO_TEXTS {
        print_row(rt, name, text)?;
    }
    for word in env::args(rt)?.skip(1) {
        let table = fs::read_to_string(rt, word.as_str())?;
        for line in table.lines() {
            if let Some((name, text)) = line.split_once('\t') {
                print_row(rt, name, text.as_bytes())?;
            }
        }
    }
    Ok(())
}

fn print_row<R: Print + AllocGlobal>(rt: &R, name: &str, text: &[u8]) -> anyhow::Result<()> {
    match read_manifest(rt.alloc(), text) {
        Ok(manifest) => {
            let parts = parts_of(rt.alloc(), &manifest)?;
            println!(rt; "{name}: ok {parts}")?;
        }
        Err(fault) => println!(rt; "{name}: {fault}")?,
    }
    Ok(())
}

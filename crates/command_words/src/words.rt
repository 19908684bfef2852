//! The words of the command line.
ghost use Rattle.std.specs.Prelude.{◌≡◌, ◌∷◌, [], option_map, map, string_bytes, IfOk};
ghost use Rattle.command_words.specs.Words as rule;
ghost use Rattle.command_words.specs.Words.{is_file_word as names_file};
ghost use Rattle.command_words.specs.Told.{told};

use crate::numbers::{arguments_of, number_of};
use ir_types::OutOfMemory;
use sqlite_items::Items as List;
use std::alloc::Global;

const MOST_STEPS: u64 = 10_000_000;

const MOST_ARGUMENTS: usize = 32;

/// A command with its words.
#[derive(Debug, Drop)]
pub enum Command<'w> {
    /// `winnow MANIFEST OUTDIR`.
    Winnow {
        manifest: &'w str,
        outdir: &'w str,
    },
    /// `check MANIFEST`.
    Check {
        manifest: &'w str,
    },
    /// `run MANIFEST STEPS ARG...`.
    Run {
        manifest: &'w str,
        steps: u64,
        args: List<i128>,
    },
}

/// The command that the words are, and `None` where they are none. The program's own name isn't among them.
///
/// `MANIFEST` and `OUTDIR` aren't empty, don't begin with `-` and have at most 1,024 bytes. `STEPS` is 0 to 10,000,000. There
/// are at most 32 `ARG`s, each from -2^63 to 2^64 - 1. Numbers are decimal digits without a leading zero, but for `0` itself.
/// The error is want of memory.
pub fn command_of(alloc: Global, words: &[String]) -> Result<Option<Command<'_>>, OutOfMemory>
    ensures { IfOk result (λ found. option_map told found ≡ rule.command_of (map (λ w. string_bytes w) words.now)) }
{
    match words {
        [] => Ok(None),
        [_] => Ok(None),
        [name, manifest] => Ok(check_command(name.as_str(), manifest.as_str())),
        [name, manifest, word, more @ ..] => {
            if name.as_str() == "run" {
                return run_command(alloc, manifest.as_str(), word.as_str(), more);
            }
            Ok(winnow_command(name.as_str(), manifest.as_str(), word.as_str(), more))
        }
    }
}

fn check_command<'w>(name: &str, manifest: &'w str) -> Option<Command<'w>>
    ensures { option_map told result ≡ rule.check_of name.now manifest.now }
{
    if name == "check" && is_file_word(manifest.as_bytes()) {
        return Some(Command::Check { manifest });
    }
    None
}

fn winnow_command<'w>(
    name: &str,
    manifest: &'w str,
    outdir: &'w str,
    more: &[String],
) -> Option<Command<'w>>
    ensures { option_map told result ≡ rule.winnow_of name.now manifest.now outdir.now (map (λ w. string_bytes w) more.now) }
{
    if !more.is_empty() {
        return None;
    }
    if name == "winnow" && is_file_word(manifest.as_bytes()) && is_file_word(outdir.as_bytes()) {
        return Some(Command::Winnow { manifest, outdir });
    }
    None
}

fn run_command<'w>(
    alloc: Global,
    manifest: &'w str,
    steps: &str,
    args: &[String],
) -> Result<Option<Command<'w>>, OutOfMemory>
    ensures { IfOk result (λ found. option_map told found ≡ rule.run_of manifest.now steps.now (map (λ w. string_bytes w) args.now)) }
{
    if !is_file_word(manifest.as_bytes()) || args.len() > MOST_ARGUMENTS {
        return Ok(None);
    }
    let steps = match number_of(steps, MOST_STEPS) {
        Some(steps) => steps,
        None => return Ok(None),
    };
    match arguments_of(alloc, args)? {
        Some(args) => Ok(Some(Command::Run {
            manifest,
            steps,
            args,
        })),
        None => Ok(None),
    }
}

fn is_file_word(word: &[u8]) -> bool
    ensures { result ≡ names_file word.now }
{
    match word {
        [] => false,
        [first, ..] => *first != b'-' && word.len() <= 1024,
    }
}

//! The arguments that an entry is given.
ghost use Rattle.std.specs.Prelude.{◌≡◌, ℕ, List, [], None, IfOk, MatchOption};
ghost use Rattle.program_runner.specs.Arguments as arguments;
ghost use Rattle.program_runner.specs.Arguments.{TakesWords};
ghost use Rattle.program_runner.specs.Mirrors.Filling.{Taken};

use ir_syntax::Func;
use ir_types::{Known, OutOfMemory};
use linker::entry_arguments;
use sqlite_items::Items as List;
use std::alloc::Global;

/// The numbers that an entry is given: the manifest's arguments, and a word, in order, for each that the manifest leaves
/// unknown, modulo 2^w of their parameters. `None` comes where there are too few words or too many, or one isn't from
/// -2^(w-1) to 2^w - 1. The error is want of memory.
pub fn entry_numbers(
    alloc: Global,
    func: &Func,
    args: &[Option<i128>],
    words: &[i128],
) -> Result<Option<List<u64>>, OutOfMemory>
    ensures { IfOk result (λ found. MatchOption found ((numbers : List ℕ) → TakesWords func.now args.now words.now numbers → ⊥) (λ numbers. TakesWords func.now args.now words.now numbers)) }
{
    let given = match filled(alloc, args, words)? {
        Some(given) => given,
        None => return Ok(None),
    };
    match entry_arguments(alloc, func, given.as_slice())? {
        Some(known) => Ok(Some(numbers_in(alloc, known.as_slice())?)),
        None => Ok(None),
    }
}

// The manifest's arguments, with a word for each that is unknown.
fn filled(
    alloc: Global,
    args: &[Option<i128>],
    words: &[i128],
) -> Result<Option<List<Option<i128>>>, OutOfMemory>
    ensures { IfOk result (λ given. given ≡ arguments.filled args.now words.now) }
{
    let mut given = List::new(alloc);
    let mut left = words;
    for arg in args {
        match taken(*arg, left) {
            Some((number, more)) => {
                given.push(Some(number))?;
                left = more;
            }
            None => return Ok(None),
        }
    }
    if left.is_empty() {
        Ok(Some(given))
    } else {
        Ok(None)
    }
}

// The argument where it is known, and otherwise the first word; and the words that are left.
fn taken(arg: Option<i128>, words: &[i128]) -> Option<(i128, &[i128])>
    ensures { MatchOption result ((arg ≡ None) × (words.now ≡ [])) (λ found. Taken arg words.now found.0 found.1.now) }
{
    match arg {
        Some(number) => Some((number, words)),
        None => match words.split_first() {
            Some((word, more)) => Some((*word, more)),
            None => None,
        },
    }
}

// The numbers among what is known.
fn numbers_in(alloc: Global, known: &[Known]) -> Result<List<u64>, OutOfMemory>
    ensures { IfOk result (λ numbers. numbers ≡ arguments.numbers_in known.now) }
{
    let mut numbers = List::new(alloc);
    for value in known {
        match value {
            Known::Num(number) => numbers.push(*number)?,
            Known::Unknown => {}
            Known::Null => {}
        }
    }
    Ok(numbers)
}

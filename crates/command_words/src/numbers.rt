//! Numbers in words.
ghost use Rattle.std.specs.Prelude.{◌≡◌, ◌<◌, ◌^◌, map, string_bytes, IfOk};
ghost use Rattle.command_words.specs.Numbers as numbers;
ghost use Rattle.command_words.specs.Mirrors.{is_plain as is_plain_word};

use ir_types::OutOfMemory;
use sqlite_items::Items as List;
use std::alloc::Global;

const LEAST_MAGNITUDE: u64 = 9_223_372_036_854_775_808;

/// The number of a word: decimal digits without a sign and without a leading zero, but for `0` itself, at most `most`.
pub fn number_of(word: &str, most: u64) -> Option<u64>
    ensures { result ≡ numbers.number_of most word.now }
{
    let number = match word.parse::<u64>() {
        Ok(number) => number,
        Err(_) => return None,
    };
    if !is_plain(word.as_bytes()) {
        return None;
    }
    if number > most {
        return None;
    }
    Some(number)
}

// Whether a word begins neither with `+` nor with a zero that something follows.
fn is_plain(word: &[u8]) -> bool
    ensures { result ≡ is_plain_word word.now }
{
    match word {
        [] => true,
        [first] => *first != b'+',
        [first, ..] => *first != b'0' && *first != b'+',
    }
}

/// The argument of a word: such a number to 2^64 - 1, or `-` and such a number from 1 to 2^63.
pub fn argument_of(word: &str) -> Option<i128>
    ensures { result ≡ numbers.argument_of word.now }
{
    match word.strip_prefix('-') {
        Some(digits) => match number_of(digits, LEAST_MAGNITUDE) {
            Some(0) => None,
            Some(number) => Some(-i128::from(number)),
            None => None,
        },
        None => match number_of(word, u64::MAX) {
            Some(number) => Some(i128::from(number)),
            None => None,
        },
    }
}

/// The arguments of words, or `None` where one isn't an argument's. The error is want of memory.
pub fn arguments_of(alloc: Global, words: &[String]) -> Result<Option<List<i128>>, OutOfMemory>
    ensures { IfOk result (λ args. args ≡ numbers.arguments_of (map (λ w. string_bytes w) words.now)) }
{
    let mut args = List::new(alloc);
    for word in words {
        match argument_of(word.as_str()) {
            Some(arg) => args.push(arg)?,
            None => return Ok(None),
        }
    }
    Ok(Some(args))
}

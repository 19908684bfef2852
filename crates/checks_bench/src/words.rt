//! The words that the program is given.
use crate::refusal::Refusal;
use crate::shape::Shape;
use std::rt::Env;
use std::{env, io};

// The greatest size.
const LARGEST: u32 = 1_000_000;

/// The words after the program's name.
pub fn words_of<R: Env + AllocGlobal>(rt: &R) -> io::Result<Vec<String>> {
    let mut words = Vec::new(rt.alloc());
    for (place, word) in env::args(rt)?.enumerate() {
        if place > 0 {
            words.push(word)?;
        }
    }
    Ok(words)
}

/// The shape and the size that two words ask for. The size is from 1 to 1,000,000, in decimal digits, before which a
/// `+` may stand. `Usage` comes for any other words.
pub fn asked(words: &[String]) -> Result<(Shape, u32), Refusal> {
    match words {
        [shape, size] => match (Shape::named(shape.as_str()), size_of(size.as_str())) {
            (Some(shape), Some(size)) => Ok((shape, size)),
            _ => Err(Refusal::Usage),
        },
        _ => Err(Refusal::Usage),
    }
}

fn size_of(word: &str) -> Option<u32> {
    match word.parse::<u32>() {
        Ok(size) => if size == 0 || size > LARGEST {
            None
        } else {
            Some(size)
        },
        Err(_) => None,
    }
}

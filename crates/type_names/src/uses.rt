//! An order in which types come behind those that they use.
ghost use Rattle.std.specs.Prelude.{◌≡◌, ◌<◌, true, false, not, length, count_by};

use crate::named::NamedType;
use ir_grammar::{Lexeme, Shape};
use ir_lexer::{Kind, Token, decode, undecoded};
use ir_scope::Scope;
use ir_types::OutOfMemory;
use std::alloc::Global;

/// A step of the walk from types to those that they use.
#[derive(Clone, Copy)]
enum Step {
    /// To the type of a place, and through what it uses.
    Enter(usize),
    /// On from the type of a place, when what it uses is done.
    Leave(usize),
}

/// The place of the type that a lexeme names.
fn used_place(
    alloc: Global,
    places: &Scope,
    lexeme: &Lexeme,
) -> Result<Option<usize>, OutOfMemory> {
    if !matches!(lexeme.shape, Shape::Local) {
        return Ok(None);
    }
    let token = Token {
        kind: Kind::LocalName,
        from: 0,
        to: lexeme.text.len(),
    };
    match undecoded(lexeme.text, token) {
        Some(name) => Ok(places.lookup_symbol(name)),
        None => {
            let name = decode(alloc, lexeme.text, token)?;
            Ok(places.lookup_symbol(name.as_slice()))
        }
    }
}

/// Adds a step to each type that these lexemes name.
fn push_used(
    alloc: Global,
    places: &Scope,
    written: &[Lexeme],
    steps: &mut Vec<Step>,
) -> Result<(), OutOfMemory> {
    for lexeme in written {
        match used_place(alloc, places, lexeme)? {
            Some(place) => steps.push(Step::Enter(place))?,
            None => {}
        }
    }
    Ok(())
}

/// A step to each of so many types.
fn entrances(alloc: Global, count: usize) -> Result<Vec<Step>, OutOfMemory> {
    let mut steps = Vec::new(alloc);
    for place in 0..count {
        steps.push(Step::Enter(place))?;
    }
    Ok(steps)
}

/// Marks a place as entered. Answers whether there is such a place, and it wasn't entered before.
fn enter(entered: &mut [bool], place: usize) -> bool
    ensures within { result ≡ true → place < length entered.old }
    ensures fewer { result ≡ true → count_by not entered.new < count_by not entered.old }
    ensures same { result ≡ false → entered.new ≡ entered.old }
{
    if place < entered.len() && !entered[place] {
        entered[place] = true;
        return true;
    }
    false
}

/// Places of types, each at most once, and behind the places of the types that it uses; where types use each other, in
/// some order. It doesn't recurse, and takes time in proportion to the lexemes.
pub(crate) fn used_first(
    alloc: Global,
    places: &Scope,
    types: &[NamedType],
) -> Result<Vec<usize>, OutOfMemory> {
    let mut entered = vec![in alloc; false; types.len()]?;
    let mut steps = entrances(alloc, types.len())?;
    let mut order = Vec::new(alloc);
    'walking: while let Some(step) = steps.pop() {
        match step {
            Step::Enter(place) => {
                if enter(entered.as_mut_slice(), place) {
                    steps.push(Step::Leave(place))?;
                    push_used(alloc, places, types[place].written, &mut steps)?;
                }
            }
            Step::Leave(place) => order.push(place)?,
        }
    }
    Ok(order)
}

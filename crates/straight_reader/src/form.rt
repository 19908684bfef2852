//! Which definitions are of the form.
ghost use Rattle.std.specs.Prelude.{◌≡◌, ◌+◌, true, false, drop, IfOk, MatchOption};
ghost use Rattle.std.specs.List.{list_all};
ghost use Rattle.name_table.specs.Places.{are_distinct};
ghost use Rattle.straight_form.specs.Names.{is_plain_name};
ghost use Rattle.straight_form.specs.Form.{params_among, takes, keeps_form, is_straight, are_straight, has_entry};
ghost use Rattle.straight_reader.specs.Forms.{function_names};

use crate::names::is_plain_name;
use ir_types::{Bytes, OutOfMemory};
use name_table::Names;
use std::alloc::Global;
use straight_form::{Entity, Line};

/// The names of the functions, where none is doubled.
pub fn names(alloc: Global, entities: &[Entity]) -> Result<Option<Names>, OutOfMemory>
    ensures { IfOk result (λ found. MatchOption found (are_distinct (function_names entities.now) ≡ false) (λ names. (names ≡ function_names entities.now) × (are_distinct (function_names entities.now) ≡ true))) }
{
    let mut names = Names::new(alloc);
    for entity in entities {
        if !names.add(alloc, entity.name.as_slice())? {
            return Ok(None);
        }
    }
    Ok(Some(names))
}

/// Whether each of the names is plain.
fn are_plain(names: &[Bytes]) -> bool
    ensures { result ≡ list_all is_plain_name names.now }
{
    for name in names {
        if !is_plain_name(name.as_slice()) {
            return false;
        }
    }
    true
}

/// Whether a function behind the one at a place has this name, and takes so many words.
fn takes(callee: &[u8], given: usize, entities: &[Entity], functions: &Names, at: usize) -> bool
    requires names { functions.now ≡ function_names entities.now }
    requires distinct { are_distinct functions.now ≡ true }
    ensures { result ≡ takes (params_among callee.now (drop (at + 1) entities.now)) given }
{
    match functions.place_of(callee) {
        Some(place) => at < place && entities[place].params.len() == given,
        None => false,
    }
}

/// Whether a line of the function at a place has a plain name, and calls, if it calls, a later function with as many
/// words as that takes.
fn keeps_form(line: &Line, entities: &[Entity], functions: &Names, at: usize) -> bool
    requires names { functions.now ≡ function_names entities.now }
    requires distinct { are_distinct functions.now ≡ true }
    ensures { result ≡ keeps_form (drop (at + 1) entities.now) line.now }
{
    match line {
        Line::Add { name, .. } => is_plain_name(name.as_slice()),
        Line::Call { name, callee, args } => {
            is_plain_name(name.as_slice())
                && takes(callee.as_slice(), args.len(), entities, functions, at)
        }
    }
}

/// Whether each line of the function at a place keeps the form.
fn keep_form(lines: &[Line], entities: &[Entity], functions: &Names, at: usize) -> bool
    requires names { functions.now ≡ function_names entities.now }
    requires distinct { are_distinct functions.now ≡ true }
    ensures { result ≡ list_all (keeps_form (drop (at + 1) entities.now)) lines.now }
{
    for line in lines {
        if !keeps_form(line, entities, functions, at) {
            return false;
        }
    }
    true
}

/// Whether the function at a place has plain names and no label, and each of its lines keeps the form.
fn is_straight(entity: &Entity, entities: &[Entity], functions: &Names, at: usize) -> bool
    requires names { functions.now ≡ function_names entities.now }
    requires distinct { are_distinct functions.now ≡ true }
    ensures { result ≡ is_straight (drop (at + 1) entities.now) entity.now }
{
    is_plain_name(entity.name.as_slice())
        && are_plain(entity.params.as_slice())
        && entity.label.is_none()
        && keep_form(entity.lines.as_slice(), entities, functions, at)
}

/// Whether each definition is straight.
pub fn are_straight(entities: &[Entity], functions: &Names) -> bool
    requires names { functions.now ≡ function_names entities.now }
    requires distinct { are_distinct functions.now ≡ true }
    ensures { result ≡ are_straight entities.now }
{
    for (at, entity) in entities.iter().enumerate() {
        if !is_straight(entity, entities, functions, at) {
            return false;
        }
    }
    true
}

/// Whether a function that other modules see has this name, and so many parameters.
pub fn has_entry(entry: &[u8], count: usize, entities: &[Entity]) -> bool
    ensures { result ≡ has_entry entry.now count entities.now }
{
    for entity in entities {
        if entity.name.as_slice() == entry && !entity.internal && entity.params.len() == count {
            return true;
        }
    }
    false
}

//! How it becomes known what names stand for.
ghost use Rattle.std.specs.Prelude.{◌≡◌, length, true, false, IfOk, OnOk};
ghost use Rattle.name_table.specs.Places.{place_among};
ghost use Rattle.ir_scope.specs.Scopes.{is_at};
ghost use Rattle.type_names.specs.Written.{named_of, named, names_of};
ghost use Rattle.type_names.specs.Learning.{tried, adds, tried_at, adds_at, unknown, AreKnown, IsClosed, IsPassed};

use crate::named::NamedType;
use ir_scope::{Scope, read_type};
use ir_types::{Bytes, OutOfMemory};
use sqlite_items::Items as List;
use std::alloc::Global;

/// The names of the types as symbols of a scope, where the first of doubled names counts.
pub(crate) fn type_places(alloc: Global, types: &[NamedType]) -> Result<Scope, OutOfMemory>
    ensures { IfOk result (λ places. places.symbols ≡ names_of (named types.now)) }
{
    let mut names = List::new(alloc);
    for named in types {
        names.push(named.name.copy(alloc)?)?;
    }
    Scope::first_of(alloc, List::new(alloc), names)
}

/// Whether the first type of this name has the place.
pub(crate) fn is_first(places: &Scope, place: usize, name: &[u8]) -> bool
    ensures { result ≡ is_at (place_among name.now places.now.symbols) place }
{
    match places.lookup_symbol(name) {
        Some(first) => first == place,
        None => false,
    }
}

/// Adds the type that a name stands for, if nothing is known of the name and what is written can be read over what is
/// known. Answers whether it was added.
fn learn(alloc: Global, scope: &mut Scope, named: &NamedType) -> Result<bool, OutOfMemory>
    ensures types { OnOk result (scope.new.types ≡ tried scope.old.types (named_of named.now)) }
    ensures symbols { OnOk result (scope.new.symbols ≡ scope.old.symbols) }
    ensures added { IfOk result (λ added. added ≡ adds scope.old.types (named_of named.now)) }
{
    if scope.lookup_type(named.name.as_slice()).is_some() {
        return Ok(false);
    }
    match read_type(alloc, scope, named.written)? {
        Some((ty, _)) => {
            scope.add_type(alloc, named.name.as_slice(), ty)?;
            Ok(true)
        }
        None => Ok(false),
    }
}

/// The same for the type of a place, if it is the first of its name.
fn learn_at(
    alloc: Global,
    scope: &mut Scope,
    places: &Scope,
    types: &[NamedType],
    place: usize,
) -> Result<bool, OutOfMemory>
    requires { places.now.symbols ≡ names_of (named types.now) }
    ensures types { OnOk result (scope.new.types ≡ tried_at (named types.now) place scope.old.types) }
    ensures symbols { OnOk result (scope.new.symbols ≡ scope.old.symbols) }
    ensures added { IfOk result (λ added. added ≡ adds_at (named types.now) place scope.old.types) }
{
    match types.get(place) {
        Some(named) => {
            if is_first(places, place, named.name.as_slice()) {
                learn(alloc, scope, named)
            } else {
                Ok(false)
            }
        }
        None => Ok(false),
    }
}

/// Tries the types of these places in order.
pub(crate) fn learn_in(
    alloc: Global,
    scope: &mut Scope,
    places: &Scope,
    types: &[NamedType],
    order: &[usize],
) -> Result<(), OutOfMemory>
    requires symbols { places.now.symbols ≡ names_of (named types.now) }
    requires known { AreKnown (named types.now) scope.old.types }
    ensures known { OnOk result (AreKnown (named types.now) scope.new.types) }
    ensures symbols { OnOk result (scope.new.symbols ≡ scope.old.symbols) }
{
    for place in order {
        learn_at(alloc, scope, places, types, *place)?;
    }
    Ok(())
}

/// Tries each type. Answers whether one was added.
fn learn_each(
    alloc: Global,
    scope: &mut Scope,
    places: &Scope,
    types: &[NamedType],
) -> Result<bool, OutOfMemory>
    requires symbols { places.now.symbols ≡ names_of (named types.now) }
    requires known { AreKnown (named types.now) scope.old.types }
    ensures passed { IfOk result (λ added. IsPassed (named types.now) scope.old.types scope.new.types (length types.now) added) }
    ensures symbols { OnOk result (scope.new.symbols ≡ scope.old.symbols) }
{
    let mut added = false;
    for place in 0..types.len() {
        added |= learn_at(alloc, scope, places, types, place)?;
    }
    Ok(added)
}

/// Tries all types again and again, until none is added.
pub(crate) fn learn_rest(
    alloc: Global,
    scope: &mut Scope,
    places: &Scope,
    types: &[NamedType],
) -> Result<(), OutOfMemory>
    requires symbols { places.now.symbols ≡ names_of (named types.now) }
    requires known { AreKnown (named types.now) scope.old.types }
    ensures known { OnOk result (AreKnown (named types.now) scope.new.types) }
    ensures closed { OnOk result (IsClosed (named types.now) scope.new.types) }
    ensures symbols { OnOk result (scope.new.symbols ≡ scope.old.symbols) }
{
    'learning: while learn_each(alloc, scope, places, types)? {}
    Ok(())
}

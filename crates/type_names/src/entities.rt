//! Which named types a module may have.
ghost use Rattle.std.specs.Prelude.{◌≡◌, ◌&&◌, ◌||◌, ℕ, List, is_some, IfOk};
ghost use Rattle.name_table.specs.Places.{place_among};
ghost use Rattle.ir_grammar.specs.Tokens.{seen};
ghost use Rattle.ir_types.specs.Names.{is_name};
ghost use Rattle.ir_scope.specs.Scopes.{type_among, is_at};
ghost use Rattle.type_names.specs.TypeNames.{is_opaque, stands_for};
ghost use Rattle.type_names.specs.Written.{named, names_of, type_entities};

use crate::learn::is_first;
use crate::named::NamedType;
use ir_grammar::{Lexeme, Shape};
use ir_scope::Scope;
use ir_types::{OutOfMemory, is_name};
use std::alloc::Global;

/// Whether `opaque` is written.
fn is_opaque(written: &[Lexeme]) -> bool
    ensures { result ≡ is_opaque (seen written.now) }
{
    match written {
        [first, ..] => matches!(first.shape, Shape::Opaque),
        [] => false,
    }
}

/// Whether a type is the first of its name, and opaque or one that stands for a type in the scope.
fn is_entity(scope: &Scope, places: &Scope, place: usize, named: &NamedType) -> bool
    ensures { result ≡ (is_name named.now.name && is_at (place_among named.now.name places.now.symbols) place
        && (is_opaque (seen named.now.written.now) || is_some (type_among scope.now.types named.now.name))) }
{
    let name = named.name.as_slice();
    is_name(name)
        && is_first(places, place, name)
        && (is_opaque(named.written) || scope.lookup_type(name).is_some())
}

/// For each type in order, whether it is one that a module may have.
pub(crate) fn type_entities(
    alloc: Global,
    scope: &Scope,
    places: &Scope,
    types: &[NamedType],
) -> Result<Vec<bool>, OutOfMemory>
    requires places { places.now.symbols ≡ names_of (named types.now) }
    requires stand { (name : List ℕ) → type_among scope.now.types name ≡ stands_for (named types.now) name }
    ensures { IfOk result (λ entities. entities.items ≡ type_entities (named types.now)) }
{
    let mut entities = Vec::new(alloc);
    for (place, named) in types.iter().enumerate() {
        entities.push(is_entity(scope, places, place, named))?;
    }
    Ok(entities)
}

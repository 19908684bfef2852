//! What the named types of a module stand for.
ghost use Rattle.std.specs.Prelude.{◌≡◌, ℕ, List, IfOk};
ghost use Rattle.ir_scope.specs.Scopes.{type_among};
ghost use Rattle.type_names.specs.TypeNames.{stands_for};
ghost use Rattle.type_names.specs.Written.{named, type_entities};

use crate::entities::type_entities;
use crate::learn::{learn_in, learn_rest, type_places};
use crate::named::NamedType;
use crate::uses::used_first;
use ir_scope::Scope;
use ir_types::{Bytes, OutOfMemory};
use sqlite_items::Items as List;
use std::alloc::Global;

/// What the names of a module stand for.
#[derive(Drop)]
pub struct ExpandedTypes {
    /// The types that names stand for, and the names of the items.
    pub scope: Scope,
    /// For each named type in order, whether it is the first of its name, the name has 1 to 4,096 bytes without a zero
    /// byte, and it is opaque or stands for a type.
    pub entities: Vec<bool>,
}

/// Expands the named types of a module. `types` are those that the module writes, in order: each a name and the kept
/// lexemes behind the word `type`. `symbols` are the names of the module's items. In the scope of the answer
/// a name stands for the type that is written for it, where each name in that type stands for its own. Nothing else
/// has a name there:
///
/// - a name that isn't written, or for which `opaque` is written;
/// - a name whose type has itself as a part, through however many names: LLVM gives such a type no size;
/// - a name whose type has a part for which a name stands for nothing;
/// - a name whose type nests deeper than 64, or has more than 4,096 scalars, arrays and structs.
///
/// Of doubled names the first counts. See "Structure Type" and "Opaque Structure Types" in the LLVM Language Reference
/// Manual, which gives a name to any type.
///
/// Nothing recurses along a chain of names, and the time is in proportion to the lexemes and to the expanded types. The
/// expanded types of all names are kept: where 1,000 names stand for one type of 4,096 parts, that type is there 1,000
/// times. `OutOfMemory` comes where the allocator refuses memory, and nowhere else.
pub fn expand_types(
    alloc: Global,
    types: &[NamedType],
    symbols: List<Bytes>,
) -> Result<ExpandedTypes, OutOfMemory>
    ensures types { IfOk result (λ found. (name : List ℕ) → type_among found.scope.types name ≡ stands_for (named types.now) name) }
    ensures symbols { IfOk result (λ found. found.scope.symbols ≡ symbols) }
    ensures entities { IfOk result (λ found. found.entities.items ≡ type_entities (named types.now)) }
{
    let places = type_places(alloc, types)?;
    let order = used_first(alloc, &places, types)?;
    let mut scope = Scope::first_of(alloc, List::new(alloc), symbols)?;
    learn_in(alloc, &mut scope, &places, types, order.as_slice())?;
    learn_rest(alloc, &mut scope, &places, types)?;
    let entities = type_entities(alloc, &scope, &places, types)?;
    Ok(ExpandedTypes { scope, entities })
}

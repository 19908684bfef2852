//! The items of a module, entity by entity.
ghost use Rattle.std.specs.Prelude.{◌≡◌, List, true, false, is_some, slice_get, unwrap_or, option_map, Ok, IfOk, IfErr};
ghost use Rattle.ir_grammar.specs.Tokens.{Kept, seen};
ghost use Rattle.ir_scope.specs.Scopes.{env_of};
ghost use Rattle.type_names.specs.TypeNames.{named_type, named_types};
ghost use Rattle.type_names.specs.Written.{named_of, named, type_entities};
ghost use Rattle.ir_parser.specs.Items.{first_symbol, debug_symbol, item_name_of, dropped_name_of, item_of};
ghost use Rattle.ir_parser.specs.Modules.{symbols_of, first_item, kind_of, items_from};
ghost use Rattle.ir_parser.specs.Mirrors.Steps.{resolved_as, nothing_or, IsItemsCause};

use crate::entities::Entity;
use crate::fault::ReadFault;
use crate::heads::{declaration, definition};
use crate::spelling::name;
use crate::variables::variable;
use ir_grammar::{AtName, Lexeme, Shape};
use ir_scope::Scope;
use ir_syntax::Item;
use ir_types::{Bytes, OutOfMemory, is_name};
use sqlite_items::Items as List;
use std::alloc::Global;
use type_names::{ExpandedTypes, NamedType};

/// What an entity is, names put in.
#[derive(Drop)]
pub(crate) enum Resolved {
    /// A named type.
    Type,
    /// A variable or a function.
    Item(Item),
    /// None of these.
    Nothing,
    /// Its names or constants don't resolve, or the name of a declaration that is dropped breaks the limits on names.
    Unresolved,
}

/// The first name behind `@`, unless it is one of debug information.
fn first_symbol(alloc: Global, kept: &[Lexeme]) -> Result<Option<Bytes>, OutOfMemory>
    ensures { IfOk result (λ found. found ≡ first_symbol (seen kept.now)) }
{
    for lexeme in kept {
        match lexeme.shape {
            Shape::At(AtName::Debug) => return Ok(None),
            Shape::At(_) => return Ok(Some(name(alloc, lexeme.text)?)),
            _ => {}
        }
    }
    Ok(None)
}

/// The name of the item that an entity is, where it is one.
fn item_name(alloc: Global, kept: &[Lexeme]) -> Result<Option<Bytes>, OutOfMemory>
    ensures { IfOk result (λ found. found ≡ item_name_of (seen kept.now)) }
{
    match kept {
        [first, rest @ ..] => match first.shape {
            Shape::At(_) => Ok(Some(name(alloc, first.text)?)),
            Shape::Declare => first_symbol(alloc, rest),
            Shape::Define => first_symbol(alloc, rest),
            _ => Ok(None),
        },
        [] => Ok(None),
    }
}

/// The first name behind `@`, where it is one of debug information.
fn debug_symbol(alloc: Global, kept: &[Lexeme]) -> Result<Option<Bytes>, OutOfMemory>
    ensures { IfOk result (λ found. found ≡ debug_symbol (seen kept.now)) }
{
    for lexeme in kept {
        match lexeme.shape {
            Shape::At(AtName::Debug) => return Ok(Some(name(alloc, lexeme.text)?)),
            Shape::At(_) => return Ok(None),
            _ => {}
        }
    }
    Ok(None)
}

/// The name of the declaration that an entity is, where it is one that is dropped.
fn dropped_name(alloc: Global, kept: &[Lexeme]) -> Result<Option<Bytes>, OutOfMemory>
    ensures { IfOk result (λ found. found ≡ dropped_name_of (seen kept.now)) }
{
    match kept {
        [first, rest @ ..] => match first.shape {
            Shape::Declare => debug_symbol(alloc, rest),
            _ => Ok(None),
        },
        [] => Ok(None),
    }
}

/// The names of the items, in order.
pub(crate) fn symbols(alloc: Global, entities: &[Entity]) -> Result<List<Bytes>, OutOfMemory>
    ensures { IfOk result (λ names. names ≡ symbols_of entities.now) }
{
    let mut names = List::new(alloc);
    for entity in entities {
        match item_name(alloc, entity.kept())? {
            Some(name) => names.push(name)?,
            None => {}
        }
    }
    Ok(names)
}

/// The named type that an entity is, where it is one.
fn type_of<'a>(alloc: Global, kept: &'a [Lexeme<'a>]) -> Result<Option<NamedType<'a>>, OutOfMemory>
    ensures { IfOk result (λ found. option_map named_of found ≡ named_type (seen kept.now)) }
{
    match kept {
        [first, rest @ ..] => match first.shape {
            Shape::Local => Ok(Some(NamedType {
                name: name(alloc, first.text)?,
                written: rest,
            })),
            _ => Ok(None),
        },
        [] => Ok(None),
    }
}

/// The named types, in order.
pub(crate) fn types_in<'a>(
    alloc: Global,
    entities: &'a [Entity<'a>],
) -> Result<List<NamedType<'a>>, OutOfMemory>
    ensures { IfOk result (λ types. named types ≡ named_types entities.now) }
{
    let mut types = List::new(alloc);
    for entity in entities {
        match type_of(alloc, entity.kept())? {
            Some(named) => types.push(named)?,
            None => {}
        }
    }
    Ok(types)
}

/// Whether an entity is a named type.
fn is_type(kept: &[Lexeme]) -> bool
    ensures { result ≡ is_some (named_type (seen kept.now)) }
{
    match kept {
        [first, ..] => match first.shape {
            Shape::Local => true,
            _ => false,
        },
        [] => false,
    }
}

/// The item of a name that an entity is.
fn item(
    alloc: Global,
    scope: &Scope,
    name: Bytes,
    kept: &[Lexeme],
) -> Result<Option<Item>, OutOfMemory>
    ensures { IfOk result (λ found. found ≡ item_of (env_of scope.now) name (seen kept.now)) }
{
    match kept {
        [first, rest @ ..] => match first.shape {
            Shape::At(_) => variable(alloc, scope, name, rest),
            Shape::Declare => declaration(alloc, rest),
            Shape::Define => definition(alloc, scope, rest),
            _ => Ok(None),
        },
        [] => Ok(None),
    }
}

/// The same, where it is the first of its name among the items.
fn first_item(
    alloc: Global,
    scope: &Scope,
    place: usize,
    name: Bytes,
    kept: &[Lexeme],
) -> Result<Option<Item>, OutOfMemory>
    ensures { IfOk result (λ found. found ≡ first_item (env_of scope.now) place name (seen kept.now)) }
{
    match scope.lookup_symbol(name.as_slice()) {
        Some(first) => {
            if first == place {
                item(alloc, scope, name, kept)
            } else {
                Ok(None)
            }
        }
        None => Ok(None),
    }
}

/// What an entity is that is neither a named type nor an item: nothing, unless it is a declaration that is dropped and its
/// name breaks the limits on names.
fn nothing_or(alloc: Global, kept: &[Lexeme]) -> Result<Resolved, OutOfMemory>
    ensures { IfOk result (λ resolved. resolved ≡ nothing_or (dropped_name_of (seen kept.now))) }
{
    match dropped_name(alloc, kept)? {
        Some(name) => {
            if is_name(name.as_slice()) {
                Ok(Resolved::Nothing)
            } else {
                Ok(Resolved::Unresolved)
            }
        }
        None => Ok(Resolved::Nothing),
    }
}

/// What an entity is behind so many items. A named type is one that the module may have, or not.
fn resolve(
    alloc: Global,
    scope: &Scope,
    stands: bool,
    place: usize,
    kept: &[Lexeme],
) -> Result<Resolved, OutOfMemory>
    ensures { IfOk result (λ resolved. resolved ≡ resolved_as (env_of scope.now) stands place (seen kept.now) (kind_of (seen kept.now))) }
{
    if is_type(kept) {
        return if stands {
            Ok(Resolved::Type)
        } else {
            Ok(Resolved::Unresolved)
        };
    }
    match item_name(alloc, kept)? {
        Some(name) => match first_item(alloc, scope, place, name, kept)? {
            Some(item) => Ok(Resolved::Item(item)),
            None => Ok(Resolved::Unresolved),
        },
        None => nothing_or(alloc, kept),
    }
}

/// Whether the type of a place is one that the module may have.
fn stands_at(entities: &[bool], at: usize) -> bool
    ensures { result ≡ unwrap_or (slice_get entities.now at) false }
{
    match entities.get(at) {
        Some(stands) => *stands,
        None => false,
    }
}

/// The items of the entities in order, or the place of the first whose names or constants don't resolve.
pub(crate) fn items(
    alloc: Global,
    expanded: &ExpandedTypes,
    entities: &[Entity],
) -> Result<List<Item>, ReadFault>
    requires { expanded.now.entities.items ≡ type_entities (named_types entities.now) }
    ensures read { IfOk result (λ items. items_from (env_of expanded.now.scope) (named_types entities.now) entities.now 0 0 ≡ Ok items) }
    ensures refused { IfErr result (IsItemsCause (env_of expanded.now.scope) entities.now) }
{
    let mut items = List::new(alloc);
    let mut types = 0;
    for (at, entity) in entities.iter().enumerate() {
        let stands = stands_at(expanded.entities.as_slice(), types);
        match resolve(alloc, &expanded.scope, stands, items.len(), entity.kept())? {
            Resolved::Type => types += 1,
            Resolved::Item(item) => items.push(item)?,
            Resolved::Nothing => {}
            Resolved::Unresolved => return Err(ReadFault::NotInSubset { entity: at }),
        }
    }
    Ok(items)
}

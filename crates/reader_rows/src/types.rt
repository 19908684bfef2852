//! Rows of `type_names`: tables of named types, each with its place, its name and what is written for it.
use crate::answer::{Answer, Stands};
use crate::row::{Row, bytes_of, number_of};
use crate::words::lexemes;
use ir_grammar::Lexeme;
use ir_scope::{Scope, read_type, same_type};
use ir_types::{Bytes, List, OutOfMemory, Ty};
use std::alloc::Global;
use type_names::{ExpandedTypes, NamedType, expand_types, type_names_fit};

/// What stands in a row of a table.
#[derive(Drop)]
struct Named<'a> {
    name: Bytes,
    written: Vec<Lexeme<'a>>,
}

/// What is found for a row: what a name stands for, beside the type that is asked for, and whether a module may have the
/// entity.
pub fn answer(alloc: Global, rows: &[Row], fields: &[&str]) -> Result<Answer, OutOfMemory> {
    type_names_fit();
    match fields {
        [table, place, name, _, asked] => {
            let found = expanded(alloc, table_of(alloc, rows, *table)?.as_slice())?;
            let name = bytes_of(alloc, *name)?;
            Ok(Answer::Type {
                stands: stands_for(alloc, &found.scope, name.as_slice(), *asked)?,
                entity: entity(found.entities.as_slice(), number_of(*place)),
            })
        }
        _ => Ok(Answer::NoRow),
    }
}

/// The name of a row of a table, and what is written for it.
fn named_in<'a>(row: &Row<'a>, wanted: &str) -> Option<(&'a str, &'a str)> {
    match row.fields.as_slice() {
        ["types", table, _, name, written, _] if *table == wanted => Some((*name, *written)),
        _ => None,
    }
}

/// The rows of a table, in order.
fn table_of<'a>(
    alloc: Global,
    rows: &[Row<'a>],
    table: &str,
) -> Result<Vec<Named<'a>>, OutOfMemory> {
    let mut named = Vec::new(alloc);
    for row in rows {
        if let Some((name, words)) = named_in(row, table) {
            named.push(Named {
                name: bytes_of(alloc, name)?,
                written: lexemes(alloc, words)?,
            })?;
        }
    }
    Ok(named)
}

/// What the types of a table stand for.
fn expanded(alloc: Global, table: &[Named]) -> Result<ExpandedTypes, OutOfMemory> {
    let mut types = Vec::new(alloc);
    for named in table {
        types.push(NamedType {
            name: Bytes::from_slice(alloc, named.name.as_slice())?,
            written: named.written.as_slice(),
        })?;
    }
    expand_types(alloc, types.as_slice(), List::new(alloc))
}

/// The type that words without names spell.
fn spelled(alloc: Global, words: &str) -> Result<Option<Ty>, OutOfMemory> {
    let scope = Scope::first_of(alloc, List::new(alloc), List::new(alloc))?;
    let kept = lexemes(alloc, words)?;
    match read_type(alloc, &scope, kept.as_slice())? {
        Some((ty, _)) => Ok(Some(ty)),
        None => Ok(None),
    }
}

/// What a name stands for. Where no type is asked for, any is another.
fn stands_for(
    alloc: Global,
    scope: &Scope,
    name: &[u8],
    asked: &str,
) -> Result<Stands, OutOfMemory> {
    let asked = spelled(alloc, asked)?;
    match scope.lookup_type(name) {
        Some(ty) => Ok(beside(ty, &asked)),
        None => Ok(Stands::ForNothing),
    }
}

fn beside(ty: &Ty, asked: &Option<Ty>) -> Stands {
    match asked {
        Some(asked) => {
            if same_type(ty, asked) {
                Stands::ForThis
            } else {
                Stands::ForAnother
            }
        }
        None => Stands::ForAnother,
    }
}

fn entity(entities: &[bool], place: usize) -> bool {
    match entities.get(place) {
        Some(entity) => *entity,
        None => false,
    }
}

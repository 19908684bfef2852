//! The shapes of a manifest's values.
ghost use Rattle.std.specs.Prelude.{◌≡◌, IfOk, option_map, codes};
ghost use Rattle.serde_json.specs.Find.{as_object, as_str};
ghost use Rattle.serde_json.specs.View.{view, items_view, members_view};
ghost use Rattle.manifest.specs.Manifest.{call_keys, manifest_keys};
ghost use Rattle.manifest.specs.Reading as reading;

use crate::names::{are_modules, are_symbols};
use ir_types::{Bytes, OutOfMemory, is_name};
use serde_json::Value;
use sqlite_items::Items as List;
use std::alloc::Global;

const MAX_ARGS: usize = 32;

fn integer(value: &Value) -> Option<i128>
    ensures { result ≡ reading.integer_of (view value.now) }
{
    match value.as_number() {
        Some(number) => number.as_i128(),
        None => None,
    }
}

fn argument(value: &Value) -> Option<Option<i128>>
    ensures { result ≡ reading.argument_of (view value.now) }
{
    if value.is_null() {
        return Some(None);
    }
    match integer(value) {
        Some(n) => if i64::MIN as i128 <= n && n <= u64::MAX as i128 {
            Some(Some(n))
        } else {
            None
        },
        None => None,
    }
}

fn texts(alloc: Global, items: &[Value]) -> Result<Option<List<Bytes>>, OutOfMemory>
    ensures { IfOk result (λ found. found ≡ reading.each_of as_str (items_view items.now)) }
{
    let mut found = List::new(alloc);
    for item in items {
        match item.as_str() {
            Some(text) => found.push(Bytes::from_slice(alloc, text.as_bytes())?)?,
            None => return Ok(None),
        }
    }
    Ok(Some(found))
}

fn arguments(alloc: Global, items: &[Value]) -> Result<Option<List<Option<i128>>>, OutOfMemory>
    ensures { IfOk result (λ found. found
        ≡ reading.each_of reading.argument_of (items_view items.now)) }
{
    let mut found = List::new(alloc);
    for item in items {
        match argument(item) {
            Some(argument) => found.push(argument)?,
            None => return Ok(None),
        }
    }
    Ok(Some(found))
}

fn listed_texts(alloc: Global, value: &Value) -> Result<Option<List<Bytes>>, OutOfMemory>
    ensures { IfOk result (λ found. found ≡ reading.listed_texts (view value.now)) }
{
    match value.as_array() {
        Some(items) => texts(alloc, items.as_slice()),
        None => Ok(None),
    }
}

pub fn is_version_one(value: &Value) -> bool
    ensures { result ≡ reading.is_version_one (view value.now) }
{
    match value.get("version") {
        Some(version) => match integer(version) {
            Some(n) => n == 1,
            None => false,
        },
        None => false,
    }
}

pub fn modules(alloc: Global, value: &Value) -> Result<Option<List<Bytes>>, OutOfMemory>
    ensures { IfOk result (λ found. found ≡ reading.modules_of (view value.now)) }
{
    let Some(listed) = value.get("modules") else {
        return Ok(None);
    };
    let Some(names) = listed_texts(alloc, listed)? else {
        return Ok(None);
    };
    if are_modules(alloc, names.as_slice())? {
        Ok(Some(names))
    } else {
        Ok(None)
    }
}

fn symbol_name(alloc: Global, call: &Value) -> Result<Option<Bytes>, OutOfMemory>
    ensures { IfOk result (λ found. found ≡ reading.name_of (view call.now)) }
{
    let Some(listed) = call.get("name") else {
        return Ok(None);
    };
    let Some(name) = listed.as_str() else {
        return Ok(None);
    };
    if !is_name(name.as_bytes()) {
        return Ok(None);
    }
    Ok(Some(Bytes::from_slice(alloc, name.as_bytes())?))
}

fn known_arguments(alloc: Global, call: &Value) -> Result<Option<List<Option<i128>>>, OutOfMemory>
    ensures { IfOk result (λ found. found ≡ reading.args_of (view call.now)) }
{
    let Some(listed) = call.get("args") else {
        return Ok(None);
    };
    let Some(items) = listed.as_array() else {
        return Ok(None);
    };
    let Some(args) = arguments(alloc, items.as_slice())? else {
        return Ok(None);
    };
    if args.len() <= MAX_ARGS {
        Ok(Some(args))
    } else {
        Ok(None)
    }
}

fn is_call_key(key: &str) -> bool
    ensures { result ≡ reading.is_among call_keys key.now }
{
    key == "name" || key == "args"
}

fn is_manifest_key(key: &str) -> bool
    ensures { result ≡ reading.is_among manifest_keys key.now }
{
    key == "version" || key == "modules" || key == "entry" || key == "exports" || key == "outside"
}

fn has_only_call_keys(call: &Value) -> bool
    ensures { result
        ≡ reading.members_pass (reading.is_among call_keys) (as_object (view call.now)) }
{
    match call.as_object() {
        Some(members) => members.keys().all(|key| is_call_key(key.as_str())),
        None => true,
    }
}

pub fn has_only_manifest_keys(value: &Value) -> bool
    ensures { result
        ≡ reading.members_pass (reading.is_among manifest_keys) (as_object (view value.now)) }
{
    match value.as_object() {
        Some(members) => members.keys().all(|key| is_manifest_key(key.as_str())),
        None => true,
    }
}

fn call(alloc: Global, value: &Value) -> Result<Option<(Bytes, List<Option<i128>>)>, OutOfMemory>
    ensures { IfOk result (λ found. found ≡ reading.call_of (view value.now)) }
{
    if !has_only_call_keys(value) {
        return Ok(None);
    }
    let Some(name) = symbol_name(alloc, value)? else {
        return Ok(None);
    };
    let Some(args) = known_arguments(alloc, value)? else {
        return Ok(None);
    };
    Ok(Some((name, args)))
}

pub fn entry(
    alloc: Global,
    value: &Value,
) -> Result<Option<(Bytes, List<Option<i128>>)>, OutOfMemory>
    ensures { IfOk result (λ found. found ≡ reading.entry_of (view value.now)) }
{
    match value.get("entry") {
        Some(listed) => call(alloc, listed),
        None => Ok(None),
    }
}

pub fn symbols(alloc: Global, key: &str, value: &Value) -> Result<Option<List<Bytes>>, OutOfMemory>
    ensures { IfOk result (λ found. found ≡ reading.symbols_of key.now (view value.now)) }
{
    let Some(listed) = value.get(key) else {
        return Ok(Some(List::new(alloc)));
    };
    let Some(names) = listed_texts(alloc, listed)? else {
        return Ok(None);
    };
    if are_symbols(alloc, names.as_slice())? {
        Ok(Some(names))
    } else {
        Ok(None)
    }
}

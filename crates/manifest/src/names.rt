//! Tests of names.
ghost use Rattle.std.specs.Prelude.{◌≡◌, IfOk};
ghost use Rattle.std.specs.List.{list_all};
ghost use Rattle.ir_types.specs.Names.{is_name};
ghost use Rattle.manifest.specs.Names.{parts};
ghost use Rattle.manifest.specs.Reading as reading;

use ir_types::{Bytes, OutOfMemory, is_name};
use std::alloc::Global;
use std::collections::BTreeSet;

const MAX_MODULES: usize = 256;

const MAX_MODULE_NAME: usize = 255;

fn is_module_byte(byte: u8) -> bool
    ensures { result ≡ reading.is_module_byte byte }
{
    byte.is_ascii_alphanumeric() || byte == b'.' || byte == b'_' || byte == b'/' || byte == b'-'
}

fn is_part(part: &[u8]) -> bool
    ensures { result ≡ reading.is_part part.now }
{
    !part.is_empty() && part != b".".as_slice() && part != b"..".as_slice()
}

fn has_module_bytes(name: &[u8]) -> bool
    ensures { result ≡ list_all reading.is_module_byte name.now }
{
    name.iter().all(|byte| is_module_byte(*byte))
}

fn has_parts(name: &[u8]) -> bool
    ensures { result ≡ list_all reading.is_part (parts name.now) }
{
    name.split(|byte| *byte == b'/').all(|part| is_part(part))
}

// The name of a module.
fn is_module_name(name: &[u8]) -> bool
    ensures { result ≡ reading.is_module_name name.now }
{
    if name.is_empty() || name.len() > MAX_MODULE_NAME {
        return false;
    }
    has_module_bytes(name) && has_parts(name)
}

fn are_module_names(names: &[Bytes]) -> bool
    ensures { result ≡ list_all reading.is_module_name names.now }
{
    names.iter().all(|name| is_module_name(name.as_slice()))
}

fn are_symbol_names(names: &[Bytes]) -> bool
    ensures { result ≡ list_all is_name names.now }
{
    names.iter().all(|name| is_name(name.as_slice()))
}

// No two names are the same.
fn are_distinct(alloc: Global, names: &[Bytes]) -> Result<bool, OutOfMemory>
    ensures { IfOk result (λ apart. apart ≡ reading.are_distinct names.now) }
{
    let seen: BTreeSet<&Bytes> = names.iter().collect(alloc)?;
    Ok(seen.len() == names.len())
}

// There are 1 to 256 names, each a module's, and they differ.
pub fn are_modules(alloc: Global, names: &[Bytes]) -> Result<bool, OutOfMemory>
    ensures { IfOk result (λ pass. pass ≡ reading.are_modules names.now) }
{
    if names.is_empty() || names.len() > MAX_MODULES {
        return Ok(false);
    }
    if !are_module_names(names) {
        return Ok(false);
    }
    are_distinct(alloc, names)
}

// Each name is a symbol's, and they differ.
pub fn are_symbols(alloc: Global, names: &[Bytes]) -> Result<bool, OutOfMemory>
    ensures { IfOk result (λ pass. pass ≡ reading.are_symbols names.now) }
{
    if !are_symbol_names(names) {
        return Ok(false);
    }
    are_distinct(alloc, names)
}

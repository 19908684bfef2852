//! The manifest of a text.
ghost use Rattle.std.specs.Prelude.{◌≡◌, ◌≢◌, Ok, Err, IfOk};
ghost use Rattle.serde_json.specs.View.{view};
ghost use Rattle.manifest.specs.Json.{HasNoValue};
ghost use Rattle.manifest.specs.Manifest.{HasManifest, HasFirstBroken, IsOrWantsMemory};
ghost use Rattle.manifest.specs.Reading.{answer_of};

use crate::fault::{Key, Manifest, ManifestFault};
use crate::shape::{entry, has_only_manifest_keys, is_version_one, modules, symbols};
use serde_json::Value;
use std::alloc::Global;

fn manifest_of(alloc: Global, value: &Value) -> Result<Manifest, ManifestFault>
    ensures { result ≢ Err ManifestFault.OutOfMemory → result ≡ answer_of (view value.now) }
{
    if !value.is_object() {
        return Err(ManifestFault::BadManifest { key: Key::Whole });
    }
    if !is_version_one(value) {
        return Err(ManifestFault::BadManifest { key: Key::Version });
    }
    let Some(modules) = modules(alloc, value)? else {
        return Err(ManifestFault::BadManifest { key: Key::Modules });
    };
    let Some((entry, args)) = entry(alloc, value)? else {
        return Err(ManifestFault::BadManifest { key: Key::Entry });
    };
    let Some(exports) = symbols(alloc, "exports", value)? else {
        return Err(ManifestFault::BadManifest { key: Key::Exports });
    };
    let Some(outside) = symbols(alloc, "outside", value)? else {
        return Err(ManifestFault::BadManifest { key: Key::Outside });
    };
    if !has_only_manifest_keys(value) {
        return Err(ManifestFault::BadManifest { key: Key::Other });
    }
    Ok(Manifest {
        modules,
        entry,
        args,
        exports,
        outside,
    })
}

/// The manifest that the bytes of a JSON text (RFC 8259) write.
///
/// Each text has exactly one of three answers, and this gives it, unless memory is wanting
/// (`OutOfMemory`):
///
/// - the bytes are not UTF-8 or write no JSON value: `NotJson`;
/// - the value breaks a rule: `BadManifest`, with the first that it breaks in the order of `Key`;
/// - the manifest of the value.
///
/// Names are told apart by sorting, so the time stays near the length of the text.
pub fn read_manifest(alloc: Global, bytes: &[u8]) -> Result<Manifest, ManifestFault>
    ensures manifest { IfOk result (HasManifest bytes.now) }
    ensures not_json { result ≡ Err ManifestFault.NotJson → HasNoValue bytes.now }
    ensures bad_manifest { (key : Key) → result ≡ Err (ManifestFault.BadManifest key)
        → HasFirstBroken bytes.now key }
    ensures answers_manifest { (manifest : Manifest) → HasManifest bytes.now manifest
        → IsOrWantsMemory result (Ok manifest) }
    ensures answers_not_json { HasNoValue bytes.now
        → IsOrWantsMemory result (Err ManifestFault.NotJson) }
    ensures answers_bad_manifest { (key : Key) → HasFirstBroken bytes.now key
        → IsOrWantsMemory result (Err (ManifestFault.BadManifest key)) }
{
    match Value::from_slice(alloc, bytes) {
        Ok(value) => manifest_of(alloc, &value),
        Err(fault) => if fault.is_memory() {
            Err(ManifestFault::OutOfMemory)
        } else {
            Err(ManifestFault::NotJson)
        },
    }
}

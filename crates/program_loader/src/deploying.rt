//! From the file of a manifest to the manifest.
ghost use Rattle.std.specs.Prelude.{All, IsUtf8, IfOk, IfErr, ◌≤◌, length};
ghost use Rattle.program_loader.specs.Refusing.{code_of, ReadsAlone, CanRefuse};
ghost use Rattle.program_loader.specs.Steps.{ManifestGives, DeploymentOf};

use crate::texts::read_text;
use crate::{Detail, Refusal};
use ir_types::OutOfMemory;
use manifest::{Manifest, ManifestFault, read_manifest};
use occam_base::{Code, Shelf};
use std::alloc::Global;

const MANIFEST_LIMIT: usize = 1_048_576;

/// Reads the manifest's file. Its modules have names that are text.
pub fn read_deployment<S: Shelf>(
    alloc: Global,
    shelf: &mut S,
    name: &[u8],
) -> Result<Manifest, Refusal>
    requires { IsUtf8 name.now }
    ensures gives { DeploymentOf (S.files shelf.old) name.now result }
    ensures codes { IfErr result (λ r. CanRefuse r.code) }
    ensures alone { ReadsAlone (code_of result) (S.files shelf.old) (S.files shelf.new) (S.read_faults shelf.old) (S.read_faults shelf.new) (S.put_faults shelf.old) (S.put_faults shelf.new) }
    ensures names { IfOk result (λ m. All IsUtf8 m.modules) }
    ensures few { IfOk result (λ m. length m.modules ≤ 256) }
{
    match read_text(alloc, shelf, name, MANIFEST_LIMIT) {
        Ok(text) => manifest_of(alloc, text.as_slice()),
        Err(refusal) => Err(refusal),
    }
}

// The manifest of a text.
fn manifest_of(alloc: Global, text: &[u8]) -> Result<Manifest, Refusal>
    ensures gives { ManifestGives text.now result }
    ensures codes { IfErr result (λ r. CanRefuse r.code) }
    ensures names { IfOk result (λ m. All IsUtf8 m.modules) }
    ensures few { IfOk result (λ m. length m.modules ≤ 256) }
{
    match read_manifest(alloc, text) {
        Ok(manifest) => Ok(manifest),
        Err(ManifestFault::NotJson) => Err(Refusal {
            code: Code::NotJson,
            detail: Detail::Nothing,
        }),
        Err(ManifestFault::BadManifest { key }) => Err(Refusal {
            code: Code::BadManifest,
            detail: Detail::Key(key),
        }),
        Err(ManifestFault::OutOfMemory) => Err(Refusal::from(OutOfMemory)),
    }
}

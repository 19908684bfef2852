//! Reading the manifest: which module, which entry, and with which arguments.
ghost use Rattle.std.specs.Prelude.{◌≡◌, ◌≤◌, length, IsUtf8, IfOk, IfSome, MatchOption};
ghost use Rattle.program_loader.specs.Refusing.{ReadsAlone, code_of};
ghost use Rattle.occam_tool.specs.Steps.{PlanGives, CanStop};
ghost use Rattle.occam_tool.specs.Entering.{AreWords};
ghost use Rattle.occam_tool.specs.Manifests.{PlanOf, IsSingle, IsNoSingle};

use crate::Refusal;
use crate::arguments::known_arguments;
use crate::path::as_text;
use crate::refusing::{not_of_form, of_file, out_of_memory};
use ir_types::{Bytes, Known, OutOfMemory};
use manifest::{Manifest, ManifestFault, read_manifest};
use occam_base::{Code, Shelf};
use program_loader::{Stop, read_whole};
use sqlite_items::Items as List;
use std::alloc::Global;

const MANIFEST_LIMIT: usize = 1_048_576;

/// What a manifest of one module says: the module's file, the entry, and what is known of its arguments.
#[derive(Debug, Drop)]
pub struct Plan {
    pub file: Bytes,
    pub entry: Bytes,
    pub args: List<Known>,
}

/// Reads the manifest's file.
pub fn read_plan<S: Shelf>(alloc: Global, shelf: &mut S, manifest: &Bytes) -> Result<Plan, Refusal>
    requires { IsUtf8 manifest.now }
    ensures gives { PlanGives (S.files shelf.old) manifest.now result }
    ensures codes { CanStop (code_of result) }
    ensures alone { ReadsAlone (code_of result) (S.files shelf.old) (S.files shelf.new) (S.read_faults shelf.old) (S.read_faults shelf.new) (S.put_faults shelf.old) (S.put_faults shelf.new) }
    ensures text { IfOk result (λ plan. IsUtf8 plan.file) }
    ensures words { IfOk result (λ plan. AreWords plan.args) }
{
    let name = manifest.as_slice();
    let text = match read_whole(alloc, shelf, as_text(name), MANIFEST_LIMIT) {
        Ok(text) => text,
        Err(Stop::Failed) => return Err(of_file(alloc, Code::ReadFault, name)),
        Err(Stop::Absent) => return Err(of_file(alloc, Code::Absent, name)),
        Err(Stop::TooLarge) => return Err(not_of_form(alloc, name)),
        Err(Stop::OutOfMemory) => return Err(out_of_memory()),
    };
    match plan_of(alloc, text.as_slice()) {
        Ok(Some(plan)) => Ok(plan),
        Ok(None) => Err(not_of_form(alloc, name)),
        Err(OutOfMemory) => Err(out_of_memory()),
    }
}

// The plan of a text, where it is a manifest of one module.
fn plan_of(alloc: Global, text: &[u8]) -> Result<Option<Plan>, OutOfMemory>
    requires { length text.now ≤ 1048576 }
    ensures plan { IfOk result (PlanOf text.now) }
    ensures text { IfOk result (λ plan. IfSome plan (λ p. IsUtf8 p.file)) }
    ensures words { IfOk result (λ plan. IfSome plan (λ p. AreWords p.args)) }
{
    match read_manifest(alloc, text) {
        Ok(manifest) => single_plan(alloc, manifest),
        Err(ManifestFault::NotJson) => Ok(None),
        Err(ManifestFault::BadManifest { key: _ }) => Ok(None),
        Err(ManifestFault::OutOfMemory) => Err(OutOfMemory),
    }
}

// The plan of a manifest with one module and nothing besides an entry with arguments of 32 bits.
fn single_plan(alloc: Global, manifest: Manifest) -> Result<Option<Plan>, OutOfMemory>
    ensures { IfOk result (λ plan. MatchOption plan (IsNoSingle manifest) (λ p. IsSingle manifest p.file p.entry p.args)) }
{
    let Manifest {
        mut modules,
        entry,
        args,
        exports,
        outside,
    } = manifest;
    if !exports.is_empty() || !outside.is_empty() || modules.len() != 1 {
        return Ok(None);
    }
    let args = match known_arguments(alloc, args.as_slice())? {
        Some(args) => args,
        None => return Ok(None),
    };
    match modules.pop() {
        Some(file) => Ok(Some(Plan { file, entry, args })),
        None => Ok(None),
    }
}

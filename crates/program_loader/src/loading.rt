//! From the file of a manifest to its program.
ghost use Rattle.std.specs.Prelude.{◌≡◌, ◌≤◌, All, IsUtf8, IfSome, IfOk, IfErr, length};
ghost use Rattle.ir_syntax.specs.Programs.{Linked};
ghost use Rattle.linker.specs.Linking.{deployment_of};
ghost use Rattle.program_loader.specs.Refusing.{code_of, ReadsAlone, CanRefuse};
ghost use Rattle.program_loader.specs.Loading.{Gives};

use crate::Refusal;
use crate::deploying::read_deployment;
use crate::linking::link_modules;
use crate::walking::read_modules;
use ir_syntax::Program;
use manifest::Manifest;
use occam_base::Shelf;
use std::alloc::Global;

/// A manifest and the program that its modules are linked to.
#[derive(Debug, Drop)]
pub struct Loaded {
    pub manifest: Manifest,
    pub program: Program,
}

/// Reads the manifest's file and the files of its modules, in their order, checks the modules, and links them.
///
/// A manifest has at most 1 MiB, a module 16 MiB, and all modules 32 MiB. The first of these causes refuses: `ReadFault`,
/// `Absent` or `TooLarge` of the manifest's file; `NotJson` or `BadManifest`; `ReadFault`, `Absent` or `TooLarge` of the
/// first module's file that stops the reading; of the first module that isn't sound `BadByte`, `NotInSubset`, `IllTyped`
/// or `NotDefinite`; then what linking refuses, in the order of `LinkFault`. `OutOfMemory` may come anywhere.
pub fn load<S: Shelf>(alloc: Global, manifest: &[u8], shelf: &mut S) -> Result<Loaded, Refusal>
    requires name { IsUtf8 manifest.now }

    // Where the shelf tells its files, the answer is that of the files, unless a read failed or memory was refused.
    ensures gives { IfSome (S.files shelf.old) (λ files. Gives files manifest.now result) }
    ensures codes { IfErr result (λ r. CanRefuse r.code) }
    // No file changes, and a fault of reading is answered exactly where its count rose, want of memory aside.
    ensures alone { ReadsAlone (code_of result) (S.files shelf.old) (S.files shelf.new) (S.read_faults shelf.old) (S.read_faults shelf.new) (S.put_faults shelf.old) (S.put_faults shelf.new) }
    // Over every shelf the program is linked under the manifest, and has one module for each name.
    ensures linked { IfOk result (λ loaded. Linked loaded.program.modules (deployment_of loaded.manifest) loaded.program) }
    ensures modules { IfOk result (λ loaded. length loaded.program.modules ≡ length loaded.manifest.modules) }
    ensures few { IfOk result (λ loaded. length loaded.manifest.modules ≤ 256) }
    // No module has more items than its text may have bytes.
    ensures small { IfOk result (λ loaded. All (λ m. length m.items ≤ 16777216) loaded.program.modules) }
{
    let deployed = match read_deployment(alloc, shelf, manifest) {
        Ok(deployed) => deployed,
        Err(refusal) => return Err(refusal),
    };
    let modules = match read_modules(alloc, shelf, deployed.modules.as_slice()) {
        Ok(modules) => modules,
        Err(refusal) => return Err(refusal),
    };
    match link_modules(alloc, modules, &deployed) {
        Ok(program) => Ok(Loaded {
            manifest: deployed,
            program,
        }),
        Err(refusal) => Err(refusal),
    }
}

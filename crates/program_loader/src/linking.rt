//! From sound modules and a manifest to the program.
ghost use Rattle.std.specs.Prelude.{◌≡◌, ◌≢◌, IfOk, IfErr};
ghost use Rattle.ir_syntax.specs.Programs.{AreSoundModules, Linked};
ghost use Rattle.linker.specs.Linking.{deployment_of};
ghost use Rattle.program_loader.specs.Refusing.{CanRefuse};
ghost use Rattle.program_loader.specs.Loading.{link_refusal};
ghost use Rattle.program_loader.specs.Steps.{IsUnlinked};

use crate::Refusal;
use crate::refusing::of_symbol;
use ir_syntax::{Module, Program};
use ir_types::OutOfMemory;
use linker::{LinkFault, link};
use manifest::Manifest;
use occam_base::Code;
use sqlite_items::Items as List;
use std::alloc::Global;

/// Links the modules of a manifest.
pub fn link_modules(
    alloc: Global,
    modules: List<Module>,
    manifest: &Manifest,
) -> Result<Program, Refusal>
    requires { AreSoundModules «modules» }
    ensures linked { IfOk result (λ program. Linked «modules» (deployment_of manifest.now) program) }
    ensures refused { IfErr result (IsUnlinked «modules» (deployment_of manifest.now)) }
    ensures codes { IfErr result (λ r. CanRefuse r.code) }
{
    match link(alloc, modules, manifest) {
        Ok(program) => Ok(program),
        Err(fault) => Err(of_fault(alloc, fault)?),
    }
}

// The refusal of a fault of linking.
fn of_fault(alloc: Global, fault: LinkFault) -> Result<Refusal, OutOfMemory>
    ensures is { IfOk result (λ r. r ≡ link_refusal fault) }
    ensures some { IfOk result (λ r. fault ≢ LinkFault.OutOfMemory) }
{
    match fault {
        LinkFault::TwoDefinitions { symbol } => of_symbol(
            alloc,
            Code::TwoDefinitions,
            symbol.as_slice(),
        ),
        LinkFault::NoDefinition { symbol } => of_symbol(
            alloc,
            Code::NoDefinition,
            symbol.as_slice(),
        ),
        LinkFault::TypeClash { symbol } => of_symbol(alloc, Code::TypeClash, symbol.as_slice()),
        LinkFault::NoEntry { symbol } => of_symbol(alloc, Code::NoEntry, symbol.as_slice()),
        LinkFault::EntryShape { symbol } => of_symbol(alloc, Code::EntryShape, symbol.as_slice()),
        LinkFault::NoExport { symbol } => of_symbol(alloc, Code::NoExport, symbol.as_slice()),
        LinkFault::ExportShape { symbol } => of_symbol(alloc, Code::ExportShape, symbol.as_slice()),
        LinkFault::OutOfMemory => Err(OutOfMemory),
    }
}

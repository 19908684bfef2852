//! Links modules to a whole program.
#![tactic(auto)]

ghost use Rattle.std.specs.Prelude.{IfOk, IfErr};
ghost use Rattle.ir_syntax.specs.Programs.{AreSoundModules, Linked};
ghost use Rattle.linker.specs.Linking.{deployment_of, IsCause};

mod fault;
mod functions;
mod group;
mod groups;
mod items;
mod laws;
mod marks;
mod names;
mod rows;
mod shapes;
mod slot;
mod table;

use crate::functions::{Entry, exports_of};
use crate::names::table_of;
pub use fault::LinkFault;
use ir_syntax::{Module, Program};
pub use laws::{a_linked_program_is_not_refused, a_refusal_is_one};
use manifest::Manifest;
pub use shapes::entry_arguments;
use sqlite_items::Items as List;
use std::alloc::Global;

/// Links the modules to the program of a manifest: finds what each item stands for, its canonical symbol, the entry with
/// what is known of its arguments, and the exports.
///
/// The refusals come in the order of the variants of `LinkFault`: each looks at all names before the next is looked at,
/// and names the least symbol by its bytes, or of the exports the first. On a refusal the modules are dropped.
/// `OutOfMemory` comes where the allocator refuses memory.
pub fn link(alloc: Global, modules: List<Module>, manifest: &Manifest) -> Result<Program, LinkFault>
    requires sound { AreSoundModules «modules» }
    ensures linked { IfOk result (λ program. Linked «modules» (deployment_of manifest.now) program) }
    ensures refused { IfErr result (IsCause «modules» (deployment_of manifest.now)) }
{
    let table = table_of(alloc, modules.as_slice(), manifest)?;
    let entry = Entry::of(alloc, modules.as_slice(), &table, manifest)?;
    let exports = exports_of(alloc, modules.as_slice(), &table, manifest)?;
    let targets = table.targets(alloc, modules.as_slice())?;
    let canonical = table.canonical(alloc, modules.as_slice())?;
    Ok(Program::new(
        modules,
        targets,
        canonical,
        entry.symbol,
        entry.args,
        exports,
    ))
}

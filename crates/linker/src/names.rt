//! The rules that each external name keeps.
ghost use Rattle.std.specs.Prelude.{IfOk, IfErr, OnOk};
ghost use Rattle.ir_syntax.specs.Refusals.{Rule};
ghost use Rattle.linker.specs.Linking.{deployment_of, IsCause};
ghost use Rattle.linker.specs.Mirrors.Slots.{IsTable, AreKeptBefore};

use crate::fault::LinkFault;
use crate::slot::NameRule;
use crate::table::Table;
use ir_syntax::Module;
use manifest::Manifest;
use std::alloc::Global;

/// The table of the modules for a manifest, where each name keeps the rules.
pub(crate) fn table_of(
    alloc: Global,
    modules: &[Module],
    manifest: &Manifest,
) -> Result<Table, LinkFault>
    ensures table { IfOk result (λ table. IsTable modules.now manifest.now.outside table.names table.slots) }
    ensures kept { OnOk result (AreKeptBefore modules.now (deployment_of manifest.now) Rule.NoEntry) }
    ensures refused { IfErr result (IsCause modules.now (deployment_of manifest.now)) }
{
    let table = Table::of(alloc, modules, manifest.outside.as_slice())?;
    match table.least_broken(alloc, modules, NameRule::OneDefinition)? {
        Some(symbol) => return Err(LinkFault::TwoDefinitions { symbol }),
        None => {}
    }
    match table.least_broken(alloc, modules, NameRule::Defined)? {
        Some(symbol) => return Err(LinkFault::NoDefinition { symbol }),
        None => {}
    }
    match table.least_broken(alloc, modules, NameRule::OneType)? {
        Some(symbol) => return Err(LinkFault::TypeClash { symbol }),
        None => {}
    }
    Ok(table)
}

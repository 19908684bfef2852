//! The entry and the exports.
ghost use Rattle.std.specs.Prelude.{◌≡◌, IfOk, IfErr, OnOk, All};
ghost use Rattle.std.specs.List.{AllZip};
ghost use Rattle.ir_syntax.specs.Symbols.{item_at, IsFunctionFor};
ghost use Rattle.ir_syntax.specs.Refusals.{Rule, IsKept, all_rules};
ghost use Rattle.ir_syntax.specs.Programs.{IsEntryWith, IsNamedFunction};
ghost use Rattle.linker.specs.Linking.{deployment_of, IsCause};
ghost use Rattle.linker.specs.Mirrors.Slots.{IsTable, AreKeptBefore, slot_of, function_in};

use crate::fault::LinkFault;
use crate::items::{function_at, is_function_at};
use crate::shapes::{arguments_of, fits_entry, has_plain_shape};
use crate::table::Table;
use ir_syntax::{Module, Sym, Target};
use ir_types::{Known, List};
use manifest::Manifest;
use std::alloc::Global;

impl Table {
    /// The function of an external name that has a body.
    fn function(&self, modules: &[Module], name: &[u8]) -> Option<Sym>
        ensures { result ≡ function_in modules.now (slot_of self.now.names self.now.slots name.now) }
    {
        let symbol = match self.slot(name)?.target {
            Target::Def(symbol) => symbol,
            Target::Outside => return None,
            Target::Builtin(_) => return None,
            Target::Intrinsic(_) => return None,
            Target::Nothing => return None,
        };
        if is_function_at(modules, symbol) {
            Some(symbol)
        } else {
            None
        }
    }
}

/// The entry, with what is known of its arguments.
#[derive(Drop)]
pub(crate) struct Entry {
    pub symbol: Sym,
    pub args: List<Known>,
}

impl Entry {
    /// The entry of the manifest.
    pub(crate) fn of(
        alloc: Global,
        modules: &[Module],
        table: &Table,
        manifest: &Manifest,
    ) -> Result<Entry, LinkFault>
        requires table { IsTable modules.now manifest.now.outside table.now.names table.now.slots }
        requires kept { AreKeptBefore modules.now (deployment_of manifest.now) Rule.NoEntry }
        ensures entry { IfOk result (λ entry. IsEntryWith modules.now (deployment_of manifest.now) entry.symbol entry.args) }
        ensures known { IfOk result (λ entry. IsFunctionFor entry.args (item_at modules.now entry.symbol)) }
        ensures kept { OnOk result (AreKeptBefore modules.now (deployment_of manifest.now) Rule.NoExport) }
        ensures refused { IfErr result (IsCause modules.now (deployment_of manifest.now)) }
    {
        let args = manifest.args.as_slice();
        match table.function(modules, manifest.entry.as_slice()) {
            Some(symbol) => {
                let func = function_at(modules, symbol);
                if !fits_entry(func, args) {
                    let symbol = manifest.entry.copy(alloc)?;
                    return Err(LinkFault::EntryShape { symbol });
                }
                let args = arguments_of(alloc, func.params.as_slice(), args)?;
                Ok(Entry { symbol, args })
            }
            None => {
                let symbol = manifest.entry.copy(alloc)?;
                Err(LinkFault::NoEntry { symbol })
            }
        }
    }
}

/// The functions of the exports, in order.
fn export_symbols(
    alloc: Global,
    modules: &[Module],
    table: &Table,
    manifest: &Manifest,
) -> Result<List<Sym>, LinkFault>
    requires table { IsTable modules.now manifest.now.outside table.now.names table.now.slots }
    requires kept { AreKeptBefore modules.now (deployment_of manifest.now) Rule.NoExport }
    ensures exports { IfOk result (λ symbols. AllZip (IsNamedFunction modules.now) manifest.now.exports symbols) }
    ensures refused { IfErr result (IsCause modules.now (deployment_of manifest.now)) }
{
    let exports = manifest.exports.as_slice();
    let mut symbols = List::new(alloc);
    for name in exports {
        match table.function(modules, name.as_slice()) {
            Some(symbol) => symbols.push(symbol)?,
            None => {
                let symbol = name.copy(alloc)?;
                return Err(LinkFault::NoExport { symbol });
            }
        }
    }
    Ok(symbols)
}

/// Refuses the first export whose function has another shape.
fn check_exports(
    alloc: Global,
    modules: &[Module],
    manifest: &Manifest,
    symbols: &[Sym],
) -> Result<(), LinkFault>
    requires kept { AreKeptBefore modules.now (deployment_of manifest.now) Rule.NoExport }
    requires exports { AllZip (IsNamedFunction modules.now) manifest.now.exports symbols.now }
    ensures kept { OnOk result (All (IsKept modules.now (deployment_of manifest.now)) all_rules) }
    ensures refused { IfErr result (IsCause modules.now (deployment_of manifest.now)) }
{
    let exports = manifest.exports.as_slice();
    for (i, name) in exports.iter().enumerate() {
        if !has_plain_shape(function_at(modules, symbols[i])) {
            let symbol = name.copy(alloc)?;
            return Err(LinkFault::ExportShape { symbol });
        }
    }
    Ok(())
}

/// The functions of the exports of the manifest, in order.
pub(crate) fn exports_of(
    alloc: Global,
    modules: &[Module],
    table: &Table,
    manifest: &Manifest,
) -> Result<List<Sym>, LinkFault>
    requires table { IsTable modules.now manifest.now.outside table.now.names table.now.slots }
    requires kept { AreKeptBefore modules.now (deployment_of manifest.now) Rule.NoExport }
    ensures exports { IfOk result (λ symbols. AllZip (IsNamedFunction modules.now) manifest.now.exports symbols) }
    ensures kept { OnOk result (All (IsKept modules.now (deployment_of manifest.now)) all_rules) }
    ensures refused { IfErr result (IsCause modules.now (deployment_of manifest.now)) }
{
    let symbols = export_symbols(alloc, modules, table, manifest)?;
    check_exports(alloc, modules, manifest, symbols.as_slice())?;
    Ok(symbols)
}

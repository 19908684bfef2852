//! Which demands are written as copies, and what copies keep.
ghost use Rattle.std.specs.Prelude.{◌≡◌, ◌≤◌, true, length, not, map, IfOk};
ghost use Rattle.demands.specs.Names.{is_unknown as unknown, are_unknown};
ghost use Rattle.demands.specs.Order.{pattern_of, symbol_of};
ghost use Rattle.demands.specs.Rows.{IsShortSymbol};
ghost use Rattle.winnowed_form.specs.Basis.{is_row as same_row};
ghost use Rattle.winnowed_form.specs.Copies.{is_copy as copied, written_name as name_written, staying as stay};
ghost use Rattle.reach_prune.specs.Mirrors.Shown.{shown};

use crate::grounds::Grounds;
use demand_core::Row;
use demands::{Demand, clone_name, row_of};
use interface::Mask;
use ir_syntax::Func;
use ir_types::{Bytes, Known, List, OutOfMemory};
use std::alloc::Global;

pub(crate) fn is_unknown(item: &Known) -> bool
    ensures { result ≡ unknown item.now }
{
    match item {
        Known::Unknown => true,
        Known::Num(_) => false,
        Known::Null => false,
    }
}

/// What is known of the parameters of a demanded function.
pub(crate) fn items_of(d: &Demand) -> &[Known]
    ensures { result.now ≡ pattern_of d.now }
{
    match d {
        Demand::Func { pattern, .. } => pattern.items(),
        Demand::Var { .. } => &[],
    }
}

/// Whether something is known.
fn is_anything_known(items: &[Known]) -> bool
    ensures { result ≡ not (are_unknown items.now) }
{
    for item in items {
        if !is_unknown(item) {
            return true;
        }
    }
    false
}

fn is_row(entry: &Option<Row>, row: &Row) -> bool
    ensures { result ≡ same_row entry.now row.now }
{
    match entry {
        Some(other) => other == row,
        None => false,
    }
}

/// Whether a demand is written as a copy.
pub(crate) fn is_copy(g: &Grounds<'_>, d: &Demand) -> bool
    requires short { IsShortSymbol (symbol_of d.now) }
    ensures copy { result ≡ copied (shown g.now) d.now }
    ensures few { length (pattern_of d.now) ≤ 32 }
{
    match d {
        Demand::Func { pattern, .. } => {
            is_anything_known(pattern.items()) && !is_row(&g.entry, &row_of(d))
        }
        Demand::Var { .. } => false,
    }
}

/// The name of a demanded function where it is written.
pub(crate) fn written_name(
    alloc: Global,
    g: &Grounds<'_>,
    d: &Demand,
    func: &Func,
) -> Result<Bytes, OutOfMemory>
    requires short { IsShortSymbol (symbol_of d.now) }
    ensures { IfOk result (λ name. name ≡ name_written (shown g.now) d.now func.now) }
{
    match d {
        Demand::Func { pattern, .. } => {
            if is_copy(g, d) {
                clone_name(alloc, pattern, func.name.as_slice())
            } else {
                func.name.copy(alloc)
            }
        }
        Demand::Var { .. } => func.name.copy(alloc),
    }
}

/// Whether each item is unknown.
fn open_flags(alloc: Global, items: &[Known]) -> Result<List<bool>, OutOfMemory>
    ensures { IfOk result (λ flags. flags ≡ map unknown items.now) }
{
    let mut flags = List::new(alloc);
    for item in items {
        flags.push(is_unknown(item))?;
    }
    Ok(flags)
}

/// One flag that is set for each parameter.
fn all_flags(alloc: Global, func: &Func) -> Result<List<bool>, OutOfMemory>
    ensures { IfOk result (λ flags. flags ≡ map (λ param. true) func.now.params) }
{
    let mut flags = List::new(alloc);
    for _param in func.params.as_slice() {
        flags.push(true)?;
    }
    Ok(flags)
}

fn staying_flags(
    alloc: Global,
    g: &Grounds<'_>,
    d: &Demand,
    func: &Func,
) -> Result<List<bool>, OutOfMemory>
    requires short { IsShortSymbol (symbol_of d.now) }
    ensures { IfOk result (λ flags. flags ≡ stay (shown g.now) d.now func.now) }
{
    match d {
        Demand::Func { pattern, .. } => {
            if is_copy(g, d) {
                open_flags(alloc, pattern.items())
            } else {
                all_flags(alloc, func)
            }
        }
        Demand::Var { .. } => all_flags(alloc, func),
    }
}

/// Which parameters stay of a demanded function.
pub(crate) fn staying(
    alloc: Global,
    g: &Grounds<'_>,
    d: &Demand,
    func: &Func,
) -> Result<Mask, OutOfMemory>
    requires short { IsShortSymbol (symbol_of d.now) }
    ensures { IfOk result (λ mask. mask ≡ stay (shown g.now) d.now func.now) }
{
    Mask::of(alloc, staying_flags(alloc, g, d, func)?)
}

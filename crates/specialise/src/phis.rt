//! What is left of phis.
ghost use Rattle.std.specs.Prelude.{◌≡◌, ◌+◌, ◌<◌, ◌^◌, ◌++◌, [], IfOk, OnOk, length};
ghost use Rattle.specialise.specs.Residual.{left_entry as entry_left, left_entries as entries_left, left_phi as phi_left, left_phis as phis_left};
ghost use Rattle.specialise.specs.Mirrors.Shown.{shown};

use crate::counts::Counts;
use crate::left::Left;
use ir_syntax::{MapOperand, Operand, Phi};
use ir_types::{List, OutOfMemory};
use std::alloc::Global;

/// Adds what stays of the j-th entry for its block, of a phi of the block at a place.
fn add_entry(
    alloc: Global,
    made: &mut List<(Operand, usize)>,
    left: &Left<'_>,
    place: usize,
    j: usize,
    entry: &(Operand, usize),
) -> Result<(), OutOfMemory>
    ensures { OnOk result (made.new ≡ made.old ++ entry_left (shown left.now) place j entry.now) }
{
    if left.edges.has(entry.1, place, j) {
        let operand = left.map(alloc, &entry.0)?;
        made.push((operand, left.reached.rank(entry.1)))?;
    }
    Ok(())
}

/// The entries of a phi of the block at a place that stand for reached edges.
fn left_entries(
    alloc: Global,
    left: &Left<'_>,
    place: usize,
    entries: &[(Operand, usize)],
) -> Result<List<(Operand, usize)>, OutOfMemory>
    ensures { IfOk result (λ made. made ≡ entries_left (shown left.now) place [] entries.now) }
{
    let mut made = List::new(alloc);
    let mut before = Counts::new(alloc);
    for entry in entries {
        add_entry(alloc, &mut made, left, place, before.of(entry.1), entry)?;
        before.add(entry.1)?;
    }
    Ok(made)
}

/// Adds what is left of a phi of the block at a place, whose result has the number.
fn add_phi(
    alloc: Global,
    made: &mut List<Phi>,
    left: &Left<'_>,
    place: usize,
    number: usize,
    phi: &Phi,
) -> Result<(), OutOfMemory>
    ensures { OnOk result (made.new ≡ made.old ++ phi_left (shown left.now) place number phi.now) }
{
    if left.kept.is_chosen(number) {
        let entries = left_entries(alloc, left, place, phi.entries.as_slice())?;
        made.push(Phi {
            ty: phi.ty,
            entries,
        })?;
    }
    Ok(())
}

/// The phis of the block at a place whose results stay, where the results have the numbers from `first` on.
pub(crate) fn left_phis(
    alloc: Global,
    left: &Left<'_>,
    place: usize,
    first: usize,
    phis: &[Phi],
) -> Result<List<Phi>, OutOfMemory>
    requires few { first + length phis.now < 2 ^ 64 }
    ensures { IfOk result (λ made. made ≡ phis_left (shown left.now) place first phis.now) }
{
    let mut made = List::new(alloc);
    for (k, phi) in phis.iter().enumerate() {
        add_phi(alloc, &mut made, left, place, first + k, phi)?;
    }
    Ok(made)
}

//! The rows of the functions and copies that the calls of a body ask for.
ghost use Rattle.std.specs.Prelude.{◌≡◌, ◌<◌, ◌≤◌, ◌^◌, ◌++◌, All, IfOk, OnOk, length, map, slice_get, suc};
ghost use Rattle.straight_plan.specs.Asked.{asked, forgotten};
ghost use Rattle.straight_plan.specs.Folding.{fact_at};
ghost use Rattle.straight_plan.specs.Residual.{stays};
ghost use Rattle.straight_fold.specs.Calls.{IsShortCall, arg_value, asked_rows, left_count, row_of, rows_of, value_of};

use crate::facts::operand_fact;
use crate::items::{is_copied, written_callee};
use demand_core::Row;
use demands::{Demand, Pattern, row_of};
use ir_syntax::{Arg, Inst, Item, Sym};
use ir_types::{Known, List, OutOfMemory};
use std::alloc::Global;
use straight_plan::Fact;

/// As many items of which nothing is known.
pub(crate) fn forgotten(alloc: Global, known: &[Known]) -> Result<Pattern, OutOfMemory>
    requires few { length known.now ≤ 32 }
    ensures { IfOk result (λ pattern. pattern ≡ forgotten known.now) }
{
    let unknown = [Known::Unknown; 32];
    Pattern::new(alloc, &unknown[..known.len()])
}

/// The pattern that is asked for where this is known: nothing of a function that isn't copied.
pub(crate) fn asked_pattern(
    alloc: Global,
    items: &[Item],
    place: usize,
    known: &[Known],
) -> Result<Pattern, OutOfMemory>
    requires few { length known.now ≤ 32 }
    ensures { IfOk result (λ pattern. record { place = place; pattern = pattern } ≡ asked items.now place known.now) }
{
    if is_copied(items, place) {
        Pattern::new(alloc, known)
    } else {
        forgotten(alloc, known)
    }
}

fn value_of(fact: Fact) -> Known
    ensures { result ≡ value_of fact }
{
    match fact {
        Fact::Unreached => Known::Unknown,
        Fact::One(known) => known,
        Fact::Varying => Known::Unknown,
    }
}

/// The row of a function or copy, by its place and its pattern.
pub(crate) fn row_at(place: usize, pattern: Pattern) -> Row
    requires short { place < 2 ^ 32 }
    ensures { result ≡ row_of (record { place = place; pattern = pattern }) }
{
    let func = Sym {
        module: 0,
        item: place,
    };
    row_of(&Demand::Func { func, pattern })
}

/// The row that a call of the function at the place asks for.
fn call_row(
    alloc: Global,
    items: &[Item],
    pattern: &[Known],
    facts: &[Fact],
    place: usize,
    args: &[Arg],
) -> Result<Row, OutOfMemory>
    requires few { length args.now ≤ 32 }
    requires short { place < 2 ^ 32 }
    ensures { IfOk result (λ row. row ≡ row_of (asked items.now place (map (arg_value pattern.now facts.now) args.now))) }
{
    let mut known = [Known::Unknown; 32];
    for (k, arg) in args.iter().enumerate() {
        known[k] = value_of(operand_fact(pattern, facts, &arg.value));
    }
    let asked = asked_pattern(alloc, items, place, &known[..args.len()])?;
    Ok(row_at(place, asked))
}

/// Adds the row that an instruction asks for.
fn add_asked(
    alloc: Global,
    rows: &mut List<Row>,
    items: &[Item],
    pattern: &[Known],
    facts: &[Fact],
    inst: &Inst,
) -> Result<(), OutOfMemory>
    requires { IsShortCall inst.now }
    ensures { OnOk result (rows.new ≡ rows.old ++ asked_rows items.now pattern.now facts.now inst.now) }
{
    match inst {
        Inst::Bin { .. } => {}
        Inst::Icmp { .. } => {}
        Inst::Select { .. } => {}
        Inst::Cast { .. } => {}
        Inst::Alloca { .. } => {}
        Inst::Load { .. } => {}
        Inst::Store { .. } => {}
        Inst::Gep { .. } => {}
        Inst::Call { callee, args, .. } => match written_callee(callee) {
            Some(place) => rows.push(call_row(
                alloc,
                items,
                pattern,
                facts,
                place,
                args.as_slice(),
            )?)?,
            None => {}
        },
    }
    Ok(())
}

/// The rows that the instructions ask for, in the order of the text.
pub(crate) fn rows_of(
    alloc: Global,
    items: &[Item],
    pattern: &[Known],
    facts: &[Fact],
    insts: &[Inst],
) -> Result<List<Row>, OutOfMemory>
    requires { All IsShortCall insts.now }
    ensures { IfOk result (λ rows. rows ≡ rows_of items.now pattern.now facts.now insts.now) }
{
    let mut rows = List::new(alloc);
    for inst in insts {
        add_asked(alloc, &mut rows, items, pattern, facts, inst)?;
    }
    Ok(rows)
}

fn stays(fact: Fact, inst: &Inst) -> bool
    ensures { result ≡ stays fact inst.now }
{
    match inst {
        Inst::Bin { .. } => match fact {
            Fact::Unreached => true,
            Fact::One(_) => false,
            Fact::Varying => true,
        },
        Inst::Icmp { .. } => true,
        Inst::Select { .. } => true,
        Inst::Cast { .. } => true,
        Inst::Alloca { .. } => true,
        Inst::Load { .. } => true,
        Inst::Store { .. } => true,
        Inst::Gep { .. } => true,
        Inst::Call { .. } => true,
    }
}

fn fact_at(facts: &[Fact], k: usize) -> Fact
    ensures { result ≡ fact_at (slice_get facts.now k) }
{
    match facts.get(k) {
        Some(fact) => *fact,
        None => Fact::Varying,
    }
}

/// How many instructions stay, with the terminator.
pub(crate) fn size_of(facts: &[Fact], insts: &[Inst]) -> u64
    ensures { result ≡ suc (left_count facts.now 0 insts.now) }
{
    let mut size = 1;
    for (k, inst) in insts.iter().enumerate() {
        if stays(fact_at(facts, k), inst) {
            size += 1;
        }
    }
    size
}

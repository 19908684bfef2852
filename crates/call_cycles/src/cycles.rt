//! Which functions are on call cycles.
ghost use Rattle.std.specs.Prelude.{◌≡◌, ◌↔◌, Bool, IfOk, IsTrue, option_copied, map, slice_get};
ghost use Rattle.ir_syntax.specs.Targets.{AreEntries};
ghost use Rattle.call_cycles.specs.Cycles.{IsOnCycle};
ghost use Rattle.call_cycles.specs.Mirrors.Numbering.{flag_at, flag_of as flag_in, flags_of as flags_in};

use crate::calls::graph_of;
use crate::functions::number_modules;
use crate::mark::Mark;
use crate::search::marks_of;
use ir_syntax::Program;
use ir_types::{List, OutOfMemory};
use std::alloc::Global;

/// For each item of each module whether it is a function with a body on a call cycle: one call or more, each of which writes the
/// name of an item that stands for a function with a body, lead from it to itself. Whether a call can be reached doesn't matter.
/// The error is want of memory.
pub fn on_cycles(alloc: Global, p: &Program) -> Result<List<List<bool>>, OutOfMemory>
    ensures { IfOk result (λ flags. AreEntries Bool p.now.modules (λ symbol _ flag. IsTrue flag ↔ IsOnCycle p.now symbol) flags) }
{
    let numbers = number_modules(alloc, p.modules())?;
    let graph = graph_of(alloc, p, &numbers)?;
    let marks = marks_of(alloc, &graph)?;
    let flags = flags_of(alloc, &marks, &numbers)?;
    Ok(flags)
}

/// Whether the function with a number is on a cycle.
fn flag_of(marks: &List<Mark>, number: Option<usize>) -> bool
    ensures { result ≡ flag_in marks.now number }
{
    match number {
        Some(number) => match marks.get(number) {
            Some(Mark::Closed(on_cycle)) => *on_cycle,
            Some(Mark::Open(_)) => false,
            Some(Mark::Fresh) => false,
            None => false,
        },
        None => false,
    }
}

fn row_of(
    alloc: Global,
    marks: &List<Mark>,
    numbers: &[Option<usize>],
) -> Result<List<bool>, OutOfMemory>
    ensures { IfOk result (λ flags. flags ≡ map (flag_in marks.now) numbers.now) }
{
    let mut flags = List::new(alloc);
    for number in numbers {
        flags.push(flag_of(marks, *number))?;
    }
    Ok(flags)
}

fn flags_of(
    alloc: Global,
    marks: &List<Mark>,
    numbers: &List<List<Option<usize>>>,
) -> Result<List<List<bool>>, OutOfMemory>
    ensures { IfOk result (λ flags. flags ≡ flags_in marks.now numbers.now) }
{
    let mut flags = List::new(alloc);
    for row in numbers.as_slice() {
        flags.push(row_of(alloc, marks, row.as_slice())?)?;
    }
    Ok(flags)
}

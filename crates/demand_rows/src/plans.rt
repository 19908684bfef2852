//! The plans of small modules, and what they leave.
ghost use Rattle.std.specs.Prelude.{IfOk, IfSome, slice_get};
ghost use Rattle.demands.specs.Demands.{IsFunctionFor};
ghost use Rattle.straight_plan.specs.Asked.{program_items};

use crate::least_sets::refusal;
use crate::left::module_text;
use demand_core::Row;
use demands::{Demand, clone_name, demand_among};
use fixed_point::FixFault;
use ir_syntax::Module;
use ir_types::{Known, OutOfMemory};
use std::alloc::Global;
use straight_fold::{least_plan_is_a_plan, plan, root_of, root_suits};
use straight_leave::{clones, leave, originals};
use straight_plan::{Ask, Cut, StraightProgram};
use straight_reader::{read, the_form_is_straight};

/// A module of four functions.
const FOUR: &str = "define i32 @main(i32 %x) {
  %sum = call i32 @add(i32 3, i32 %x)
  ret i32 %sum
}
define i32 @mid(i32 %y) {
  %one = add i32 4294967295, 2
  %first = call i32 @add(i32 %one, i32 %y)
  %second = call i32 @add(i32 %y, i32 5)
  ret i32 %second
}
define i32 @add(i32 %a, i32 %b) {
  %sum = add i32 %a, %b
  %more = call i32 @leaf(i32 %sum)
  ret i32 %more
}
define i32 @leaf(i32 %c) {
  %more = add i32 %c, 1
  ret i32 %more
}
";

/// A caller of a sum.
const CALLER: &str = "define i32 @main(i32 %x) {
  %sum = call i32 @add(i32 3, i32 %x)
  ret i32 %sum
}
define internal i32 @add(i32 %a, i32 %b) {
  %sum = add i32 %a, %b
  ret i32 %sum
}
";

/// A function that is asked for whole and as a copy.
const BOTH: &str = "define i32 @top(i32 %x) {
  %first = call i32 @main(i32 %x)
  %second = call i32 @f(i32 %x, i32 %x)
  %sum = add i32 %first, %second
  ret i32 %sum
}
define internal i32 @main(i32 %x) {
  %three = add i32 1, 2
  %sum = call i32 @f(i32 %three, i32 %x)
  ret i32 %sum
}
define internal i32 @f(i32 %a, i32 %b) {
  %sum = add i32 %b, %a
  ret i32 %sum
}
";

/// The plans of entries, and what plans leave, each entry by its row.
pub fn lines(alloc: Global) -> Result<Vec<String>, OutOfMemory> {
    let mut lines = Vec::new(alloc);
    add_plans(alloc, &mut lines)?;
    add_left(alloc, &mut lines)?;
    Ok(lines)
}

fn add_plans(alloc: Global, lines: &mut Vec<String>) -> Result<(), OutOfMemory> {
    let table: [(&str, &str, usize, &[u64]); 5] = [
        ("plan of main", "main", 1, &[0, 0, 0]),
        ("plan of main for 5", "main", 1, &[0, 1, 5]),
        ("plan of mid", "mid", 1, &[2, 0, 0]),
        ("plan of mid for 4294967295", "mid", 1, &[2, 1, 4294967295]),
        (
            "plan of add, which a body names",
            "add",
            2,
            &[4, 3, 5, 4294967295],
        ),
    ];
    for (name, entry, count, words) in table {
        let answer = match program_of(alloc, FOUR, entry, count)? {
            Some(program) => planned(alloc, &program, words)?,
            None => String::from_str(alloc, "no module")?,
        };
        lines.push(format!(in alloc; "{name}: {answer}")?)?;
    }
    Ok(())
}

fn add_left(alloc: Global, lines: &mut Vec<String>) -> Result<(), OutOfMemory> {
    let table: [(&str, &str, &str, &[u64]); 3] = [
        ("a known argument makes a copy", CALLER, "main", &[0, 0, 0]),
        ("the entry keeps its parameters", CALLER, "main", &[0, 1, 4]),
        ("results are numbered anew", BOTH, "top", &[0, 0, 0]),
    ];
    for (name, text, entry, words) in table {
        let answer = match program_of(alloc, text, entry, 1)? {
            Some(program) => left(alloc, &program, words)?,
            None => String::from_str(alloc, "no module")?,
        };
        lines.push(format!(in alloc; "{name}: {answer}")?)?;
    }
    Ok(())
}

/// The program of a text that is of the form for this entry of so many parameters.
pub fn program_of(
    alloc: Global,
    text: &str,
    entry: &str,
    count: usize,
) -> Result<Option<StraightProgram>, OutOfMemory> {
    the_form_is_straight();
    match read(alloc, text.as_bytes(), entry.as_bytes(), count)? {
        Some(module) => Ok(Some(StraightProgram::of(alloc, module)?)),
        None => Ok(None),
    }
}

/// An entry and what is known of its arguments.
#[derive(Drop)]
struct Entry {
    place: usize,
    args: Vec<Known>,
}

/// The entry that has this row.
fn entry_of(
    alloc: Global,
    program: &StraightProgram,
    words: &[u64],
) -> Result<Option<Entry>, OutOfMemory>
    ensures { IfOk result (λ found. IfSome found (λ entry. IsFunctionFor entry.args.items (slice_get (program_items program.now) entry.place))) }
{
    let row = match Row::of(words) {
        Some(row) => row,
        None => return Ok(None),
    };
    match demand_among(alloc, program.modules(), &row) {
        Ok(Demand::Func { func, pattern }) if func.module == 0 => Ok(Some(Entry {
            place: func.item,
            args: Vec::from_slice(alloc, pattern.items())?,
        })),
        _ => Ok(None),
    }
}

fn planned(alloc: Global, program: &StraightProgram, words: &[u64]) -> Result<String, OutOfMemory> {
    match entry_of(alloc, program, words)? {
        Some(entry) => match plan(alloc, program, entry.place, entry.args.as_slice()) {
            Ok(cuts) => names(alloc, cuts.as_slice()),
            Err(fault) => refusal(alloc, fault),
        },
        None => Ok(String::from_str(alloc, "no entry")?),
    }
}

/// The names of a plan's copies, in its order.
fn names(alloc: Global, cuts: &[Cut]) -> Result<String, OutOfMemory> {
    let mut text = String::new(alloc);
    for (k, cut) in cuts.iter().enumerate() {
        if k > 0 {
            text.push_str(" ")?;
        }
        let function: &[u8] = match cut.ask.place {
            0 => b"main",
            1 => b"mid",
            2 => b"add",
            3 => b"leaf",
            _ => b"none",
        };
        let name = clone_name(alloc, &cut.ask.pattern, function)?;
        text.push_str(str::from_utf8(name.as_slice()).unwrap_or("no text"))?;
    }
    Ok(text)
}

fn left(alloc: Global, program: &StraightProgram, words: &[u64]) -> Result<String, OutOfMemory> {
    match entry_of(alloc, program, words)? {
        Some(entry) => match left_text(alloc, program, entry.place, entry.args.as_slice()) {
            Ok(text) => Ok(text),
            Err(fault) => refusal(alloc, fault),
        },
        None => Ok(String::from_str(alloc, "no entry")?),
    }
}

/// What the least plan of an entry leaves, and how many functions and copies that is.
fn left_text(
    alloc: Global,
    program: &StraightProgram,
    place: usize,
    args: &[Known],
) -> Result<String, FixFault>
    requires entry { IsFunctionFor args.now (slice_get (program_items program.now) place) }
{
    least_plan_is_a_plan();
    root_suits();
    let start = root_of(alloc, program, place, args)?;
    let cuts = plan(alloc, program, place, args)?;
    let module = &program.modules()[0];
    let whole = leave(alloc, module, &start, cuts.as_slice())?;
    Ok(counted(alloc, &whole, &start, cuts.as_slice())?)
}

fn counted(
    alloc: Global,
    whole: &Module,
    start: &Ask,
    cuts: &[Cut],
) -> Result<String, OutOfMemory> {
    let text = module_text(alloc, whole)?;
    let functions = originals(start, cuts);
    let copies = clones(start, cuts);
    Ok(format!(in alloc; "{text}originals={functions} clones={copies}")?)
}

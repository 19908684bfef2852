//! The order of demands.
use crate::text::{demand_text, pattern};
use demand_core::Row;
use demands::{Demand, demand_cmp, row_of};
use ir_syntax::Sym;
use ir_types::Known::{Null, Num, Unknown};
use ir_types::{Known, List, OutOfMemory};
use std::alloc::Global;

/// Each of the worked demands beside the next one, a pattern beside its copy, and two rows.
pub fn lines(alloc: Global) -> Result<Vec<String>, OutOfMemory> {
    let mut lines = Vec::new(alloc);
    let rising = rising(alloc)?;
    for pair in rising.as_slice().windows(2) {
        lines.push(compared(alloc, &pair[0], &pair[1])?)?;
    }
    let one = pattern(alloc, &[Unknown, Num(5)])?;
    let same = one == one.copy(alloc)?;
    lines.push(format!(in alloc; "pattern (_,5) and its copy: same={same}")?)?;
    lines.push(in_rows(alloc)?)?;
    Ok(lines)
}

fn compared(alloc: Global, one: &Demand, other: &Demand) -> Result<String, OutOfMemory> {
    let first = demand_text(alloc, one)?;
    let second = demand_text(alloc, other)?;
    let there = demand_cmp(one, other);
    let back = demand_cmp(other, one);
    let below = one < other;
    let differ = one != other;
    Ok(format!(in alloc; "{first} and {second}: {there:?} {back:?} below={below} differ={differ}")?)
}

/// `(5,_)` comes after `(_,5)` as a demand, and before it as a row.
fn in_rows(alloc: Global) -> Result<String, OutOfMemory> {
    let below = first_row(alloc, &[Num(5), Unknown])? < first_row(alloc, &[Unknown, Num(5)])?;
    Ok(format!(in alloc; "rows of (5,_) and (_,5): below={below}")?)
}

/// The row of the first function of the first module.
fn first_row(alloc: Global, items: &[Known]) -> Result<Row, OutOfMemory> {
    Ok(row_of(&Demand::Func {
        func: Sym { module: 0, item: 0 },
        pattern: pattern(alloc, items)?,
    }))
}

fn function(alloc: Global, place: (usize, usize), items: &[Known]) -> Result<Demand, OutOfMemory> {
    Ok(Demand::Func {
        func: Sym {
            module: place.0,
            item: place.1,
        },
        pattern: pattern(alloc, items)?,
    })
}

/// Worked demands in their order.
fn rising(alloc: Global) -> Result<List<Demand>, OutOfMemory> {
    let mut demands = List::new(alloc);
    for (module, item) in [(0, 0), (0, 7), (1, 0)] {
        demands.push(Demand::Var {
            var: Sym { module, item },
        })?;
    }
    let table: [((usize, usize), &[Known]); 12] = [
        ((0, 0), &[]),
        ((0, 0), &[Unknown]),
        ((0, 0), &[Unknown, Unknown]),
        ((0, 0), &[Unknown, Num(5)]),
        ((0, 0), &[Unknown, Null]),
        ((0, 0), &[Num(0), Null]),
        ((0, 0), &[Num(5), Unknown]),
        ((0, 0), &[Num(18446744073709551615)]),
        ((0, 0), &[Null]),
        ((0, 0), &[Null, Unknown]),
        ((0, 1), &[]),
        ((1, 0), &[]),
    ];
    for (place, items) in table {
        demands.push(function(alloc, place, items)?)?;
    }
    Ok(demands)
}

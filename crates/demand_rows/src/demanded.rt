//! The rows of demands, and the demands of rows.
use crate::plans::program_of;
use crate::text::{demand_text, pattern, words_text};
use demand_core::Row;
use demands::{Demand, RowFault, demand_among, row_of};
use ir_syntax::Sym;
use ir_types::Known::{Null, Num, Unknown};
use ir_types::{Known, OutOfMemory};
use std::alloc::Global;
use straight_plan::StraightProgram;

/// A program of one function of two words.
const TEXT: &str = "define i32 @f(i32 %a, i32 %b) {\n  ret i32 %a\n}\n";

/// The rows of demands, and for rows the demands of the program that have them.
pub fn lines(alloc: Global) -> Result<Vec<String>, OutOfMemory> {
    let mut lines = Vec::new(alloc);
    add_rows(alloc, &mut lines)?;
    match program_of(alloc, TEXT, "f", 2)? {
        Some(program) => {
            lines.push(modules_line(alloc, &program)?)?;
            add_found(alloc, &program, &mut lines)?;
            add_missed(alloc, &program, &mut lines)?;
        }
        None => lines.push(String::from_str(alloc, "program: none")?)?,
    }
    Ok(lines)
}

fn add_rows(alloc: Global, lines: &mut Vec<String>) -> Result<(), OutOfMemory> {
    let table: [(u32, &[Known]); 5] = [
        (0, &[Unknown]),
        (1, &[Num(3), Unknown]),
        (0, &[]),
        (2, &[Null, Num(9), Null]),
        (4294967295, &[Unknown, Num(5)]),
    ];
    for (item, items) in table {
        let demand = Demand::Func {
            func: Sym {
                module: 0,
                item: item as usize,
            },
            pattern: pattern(alloc, items)?,
        };
        lines.push(row_line(alloc, &demand, &row_of(&demand))?)?;
    }
    let variable = Demand::Var {
        var: Sym { module: 0, item: 0 },
    };
    lines.push(row_line(alloc, &variable, &row_of(&variable))?)?;
    Ok(())
}

fn row_line(alloc: Global, demand: &Demand, row: &Row) -> Result<String, OutOfMemory> {
    let name = demand_text(alloc, demand)?;
    let words = words_text(alloc, row.words())?;
    Ok(format!(in alloc; "row of {name}: {words}")?)
}

/// How many modules the program has.
fn modules_line(alloc: Global, program: &StraightProgram) -> Result<String, OutOfMemory> {
    let count = program.modules().len();
    Ok(format!(in alloc; "modules of the program: {count}")?)
}

fn add_found(
    alloc: Global,
    program: &StraightProgram,
    lines: &mut Vec<String>,
) -> Result<(), OutOfMemory> {
    let table: [&[u64]; 4] = [
        &[0, 0, 0, 0],
        &[0, 1, 3, 0],
        &[0, 2, 0, 5],
        &[0, 3, 0, 4294967295],
    ];
    for words in table {
        lines.push(demand_line(alloc, program, words)?)?;
    }
    Ok(())
}

fn add_missed(
    alloc: Global,
    program: &StraightProgram,
    lines: &mut Vec<String>,
) -> Result<(), OutOfMemory> {
    let table: [&[u64]; 15] = [
        &[],
        &[0],
        &[0, 0],
        &[0, 0, 0],
        &[0, 0, 0, 0, 0],
        &[0, 4, 0, 0],
        &[0, 17179869184, 0, 0],
        &[0, 4294967297, 3, 0],
        &[0, 1, 4294967296, 0],
        &[0, 0, 7, 0],
        &[0, 4294967296, 0, 0],
        &[2, 0, 0, 0],
        &[8589934592, 0, 0, 0],
        &[1, 0],
        &[1, 0, 0, 0],
    ];
    for words in table {
        lines.push(demand_line(alloc, program, words)?)?;
    }
    Ok(())
}

/// The demand of the program that has the row of these words, and its row again.
fn demand_line(
    alloc: Global,
    program: &StraightProgram,
    words: &[u64],
) -> Result<String, OutOfMemory> {
    let name = words_text(alloc, words)?;
    match Row::of(words) {
        Some(row) => {
            let answer = answer(alloc, program, &row)?;
            Ok(format!(in alloc; "demand of {name}: {answer}")?)
        }
        None => Ok(format!(in alloc; "demand of {name}: no row")?),
    }
}

fn answer(alloc: Global, program: &StraightProgram, row: &Row) -> Result<String, OutOfMemory> {
    match demand_among(alloc, program.modules(), row) {
        Ok(demand) => {
            let again = row_of(&demand);
            let text = demand_text(alloc, &demand)?;
            let words = words_text(alloc, again.words())?;
            Ok(format!(in alloc; "{text} with row {words}")?)
        }
        Err(RowFault::NoDemand) => Ok(String::from_str(alloc, "none")?),
        Err(RowFault::OutOfMemory) => Err(OutOfMemory),
    }
}

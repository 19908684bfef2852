//! Names, what is known, and demands as text.
use crate::found::name_of;
use demand_core::Row;
use demands::{Demand, demand_of};
use interface::item_of;
use ir_syntax::{Program, Sym};
use ir_types::Known;
use std::alloc::Global;

/// A name, where a byte that isn't a letter, a digit or a mark of ASCII is two digits behind a backslash.
pub(crate) fn name_text(alloc: Global, name: &[u8]) -> anyhow::Result<String> {
    let mut text = String::new(alloc);
    for byte in name {
        if byte.is_ascii_graphic() {
            text.push(char::from(*byte))?;
        } else {
            text.push_str(format!(in alloc; "\\{byte:02x}")?.as_str())?;
        }
    }
    Ok(text)
}

fn symbol_text(alloc: Global, program: &Program, symbol: Sym) -> anyhow::Result<String> {
    match item_of(program, symbol) {
        Some(item) => name_text(alloc, name_of(item)),
        None => Ok(String::from_str(alloc, "nothing")?),
    }
}

fn known_text(alloc: Global, known: Known) -> anyhow::Result<String> {
    match known {
        Known::Unknown => Ok(String::from_str(alloc, " _")?),
        Known::Num(number) => Ok(format!(in alloc; " {number}")?),
        Known::Null => Ok(String::from_str(alloc, " null")?),
    }
}

/// A demand: of a function with what is known of its parameters.
pub(crate) fn demand_text(
    alloc: Global,
    program: &Program,
    demand: &Demand,
) -> anyhow::Result<String> {
    match demand {
        Demand::Func { func, pattern } => {
            let mut text = symbol_text(alloc, program, *func)?;
            for known in pattern.items() {
                text.push_str(known_text(alloc, *known)?.as_str())?;
            }
            Ok(text)
        }
        Demand::Var { var } => symbol_text(alloc, program, *var),
    }
}

/// The demands that have the rows, each in brackets.
pub(crate) fn rows_text(alloc: Global, program: &Program, rows: &[Row]) -> anyhow::Result<String> {
    let mut text = String::new(alloc);
    for row in rows {
        let asked = match demand_of(alloc, program, row) {
            Ok(demand) => demand_text(alloc, program, &demand)?,
            Err(_) => String::from_str(alloc, "no demand")?,
        };
        text.push_str(format!(in alloc; " [{asked}]")?.as_str())?;
    }
    Ok(text)
}

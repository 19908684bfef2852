//! What a program needs, as text.
use crate::shown::demand_text;
use crate::wanted::piece_text;
use call_cycles::on_cycles;
use demand_core::Row;
use demands::{Demand, demand_of};
use fixed_point::{FixFault, least};
use ir_syntax::Program;
use ir_types::{List, OutOfMemory};
use specialise::{Expander, Piece, roots};
use std::alloc::Global;

/// The needed rows of a program, each with its piece.
fn needed(alloc: Global, program: &Program) -> Result<List<(Row, Piece)>, FixFault> {
    let cycles = on_cycles(alloc, program)?;
    let roots = roots(alloc, program, &cycles)?;
    let expander = Expander::new(alloc, program)?;
    least(alloc, &expander, roots.as_slice(), List::new(alloc))
}

/// What a refusal is called.
fn refusal(fault: FixFault) -> Result<&'static str, OutOfMemory> {
    match fault {
        FixFault::TooManyDemands => Ok("too many demands"),
        FixFault::TooMuchCode => Ok("too much code"),
        FixFault::OutOfMemory => Err(OutOfMemory),
    }
}

/// A demand and its piece.
fn pair_text(alloc: Global, program: &Program, row: &Row, piece: &Piece) -> anyhow::Result<String> {
    let Ok(demand) = demand_of(alloc, program, row) else {
        return Ok(String::from_str(alloc, "no demand")?);
    };
    let symbol = match &demand {
        Demand::Func { func, .. } => *func,
        Demand::Var { var } => *var,
    };
    let name = demand_text(alloc, program, &demand)?;
    let piece = piece_text(alloc, program, symbol, piece)?;
    Ok(format!(in alloc; "[{name}] {piece}")?)
}

fn pairs_text(alloc: Global, program: &Program, pairs: &[(Row, Piece)]) -> anyhow::Result<String> {
    let count = pairs.len();
    let mut text = format!(in alloc; "{count} needed")?;
    for (row, piece) in pairs {
        let pair = pair_text(alloc, program, row, piece)?;
        text.push_str(format!(in alloc; "\n {pair}")?.as_str())?;
    }
    Ok(text)
}

/// The needed demands in row order, each with its piece.
pub(crate) fn needed_text(alloc: Global, program: &Program) -> anyhow::Result<String> {
    match needed(alloc, program) {
        Ok(pairs) => pairs_text(alloc, program, pairs.as_slice()),
        Err(fault) => Ok(String::from_str(alloc, refusal(fault)?)?),
    }
}

/// What the sizes of the pieces add to.
fn size_of(pairs: &[(Row, Piece)]) -> u64 {
    let mut size: u64 = 0;
    for (_, piece) in pairs {
        size = size.saturating_add(piece.size);
    }
    size
}

/// How many demands are needed, and what the sizes of their pieces add to.
pub(crate) fn counted_text(alloc: Global, program: &Program) -> anyhow::Result<String> {
    match needed(alloc, program) {
        Ok(pairs) => {
            let count = pairs.len();
            let size = size_of(pairs.as_slice());
            Ok(format!(in alloc; "{count} needed, size {size}")?)
        }
        Err(fault) => Ok(String::from_str(alloc, refusal(fault)?)?),
    }
}

//! The expansion of rows.
ghost use Rattle.std.specs.Prelude.{IfOk};
ghost use Rattle.specialise.specs.Pieces.{IsNothing};
ghost use Rattle.specialise.specs.Mirrors.Expanding.{row_needs, row_size};
ghost use Rattle.specialise.specs.Mirrors.Expander.{IsExpanderOf, Expands};

use crate::Piece;
use crate::expansion::expanded;
use call_cycles::on_cycles;
use demand_core::{Expand, Row};
use demands::{RowFault, demand_of};
use ir_syntax::Program;
use ir_types::{List, OutOfMemory};
use std::alloc::Global;

/// Expands the rows of a program's demands.
#[derive(Drop)]
pub struct Expander<'p> {
    program: &'p Program,
    cycles: List<List<bool>>,
}

impl<'p> Expander<'p> {
    /// What expands the rows of a program. It finds the program's call cycles. `OutOfMemory` says that the allocator refused
    /// memory.
    pub fn new(alloc: Global, program: &'p Program) -> Result<Expander<'p>, OutOfMemory>
        ensures { IfOk result (IsExpanderOf program.now) }
    {
        let cycles = on_cycles(alloc, program)?;
        Ok(Expander { program, cycles })
    }
}

/// What a row expands into that is no demand's.
fn nothing(alloc: Global) -> Piece
    ensures { IsNothing result }
{
    Piece {
        body: None,
        calls: List::new(alloc),
        size: 0,
    }
}

impl<'p> Expand for Expander<'p> {
    type Piece = Piece;

    ghost expands = { λ e row piece. Expands e.program.now e.cycles row piece };

    ghost asked = { λ e piece. piece.calls };

    ghost weight = { λ e piece. piece.size };

    ghost needs_of = { λ e row. row_needs e.program.now e.cycles row };

    ghost size_of = { λ e row. row_size e.program.now row };

    fn expand(&self, alloc: Global, row: &Row) -> Result<Piece, OutOfMemory> {
        match demand_of(alloc, self.program, row) {
            Ok(demand) => expanded(alloc, self.program, &self.cycles, &demand),
            Err(RowFault::NoDemand) => Ok(nothing(alloc)),
            Err(RowFault::OutOfMemory) => Err(OutOfMemory),
        }
    }

    fn needs<'a>(&self, piece: &'a Piece) -> &'a [Row] {
        piece.calls.as_slice()
    }

    fn size(&self, piece: &Piece) -> u64 {
        piece.size
    }

    ghost needs_law = { λ e row piece is. is.needs };

    ghost size_law = { λ e row piece is. is.size };
}

//! The expansion of rows: folding for what is demanded, and what the body that is left needs.
ghost use Rattle.std.specs.Prelude.{◌≡◌, IfOk, None, Some, []};
ghost use Rattle.demands.specs.declared.demand.Demand.TheVariants as demand;
ghost use Rattle.straight_fold.specs.Expansion.{IsPieceAt, IsPieceOf, row_needs, row_size};
ghost use Rattle.straight_fold.specs.Items.{AreStraightItems};

use crate::calls::{rows_of, size_of};
use crate::facts::facts_of;
use crate::items::{insts_at, items_of};
use crate::piece::{Found, Piece};
use demand_core::{Expand, Row};
use demands::{Demand, Pattern, RowFault, demand_among};
use ir_syntax::{Item, Sym};
use ir_types::{List, OutOfMemory};
use std::alloc::Global;
use straight_plan::StraightProgram;

/// Expands the rows of a program's demands.
#[derive(Drop)]
pub(crate) struct Expander<'p> {
    pub(crate) program: &'p StraightProgram,
}

/// What the row of a function expands into.
fn piece_of(
    alloc: Global,
    items: &[Item],
    func: Sym,
    pattern: Pattern,
) -> Result<Piece, OutOfMemory>
    requires { AreStraightItems items.now }
    ensures { IfOk result (IsPieceAt items.now (Some (demand.Func func pattern))) }
{
    let insts = insts_at(items, func.item);
    let facts = facts_of(alloc, pattern.items(), insts)?;
    let needs = rows_of(alloc, items, pattern.items(), facts.as_slice(), insts)?;
    let size = size_of(facts.as_slice(), insts);
    let demand = Demand::Func { func, pattern };
    Ok(Piece {
        found: Some(Found { demand, facts }),
        needs,
        size,
    })
}

/// What a row of no function expands into.
fn nothing(alloc: Global) -> Piece
    ensures found { result.found ≡ None }
    ensures needs { result.needs ≡ [] }
    ensures size { result.size ≡ 0 }
{
    Piece {
        found: None,
        needs: List::new(alloc),
        size: 0,
    }
}

impl<'p> Expand for Expander<'p> {
    type Piece = Piece;

    ghost expands = { λ e row piece. IsPieceOf e.program.now row piece };

    ghost asked = { λ e piece. piece.needs };

    ghost weight = { λ e piece. piece.size };

    ghost needs_of = { λ e row. row_needs e.program.now row };

    ghost size_of = { λ e row. row_size e.program.now row };

    fn expand(&self, alloc: Global, row: &Row) -> Result<Piece, OutOfMemory> {
        let items = items_of(self.program);
        match demand_among(alloc, self.program.modules(), row) {
            Ok(Demand::Func { func, pattern }) => piece_of(alloc, items, func, pattern),
            Ok(Demand::Var { .. }) => Ok(nothing(alloc)),
            Err(RowFault::NoDemand) => Ok(nothing(alloc)),
            Err(RowFault::OutOfMemory) => Err(OutOfMemory),
        }
    }

    fn needs<'a>(&self, piece: &'a Piece) -> &'a [Row] {
        piece.needs.as_slice()
    }

    fn size(&self, piece: &Piece) -> u64 {
        piece.size
    }

    ghost needs_law = { λ e row piece is. is.needs };

    ghost size_law = { λ e row piece is. is.size };
}

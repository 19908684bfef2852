//! Where what is asked for stands in what is left.
ghost use Rattle.std.specs.Prelude.{◌≡◌, ◌≢◌, ◌≤◌, ◌<◌, ◌^◌, All, AllPairs, length, IfOk};
ghost use Rattle.demands.specs.Rows.{words_of};
ghost use Rattle.straight_plan.specs.Asked.{demand_of};
ghost use Rattle.straight_leave.specs.Places.{row_of as row_of_ask, rows_of as rows_of_plan, place_in as place_among_rows};

use demand_core::Row;
use demands::{Demand, Pattern, row_of as row_of_demand};
use indexmap::IndexSet;
use ir_syntax::Sym;
use ir_types::{Known, OutOfMemory};
use std::alloc::Global;
use straight_plan::Cut;

// Places of items that a row can hold are below this.
const MOST_ITEMS: usize = 1 << 32;

// A pattern has at most so many items.
const MOST_PARAMS: usize = 32;

/// The row of the demand for a function with this pattern known.
fn row_of(alloc: Global, place: usize, pattern: &[Known]) -> Result<Row, OutOfMemory>
    requires short { place < 2 ^ 32 }
    requires few { length pattern.now ≤ 32 }
    ensures { IfOk result (λ row. row ≡ row_of_ask (record { place = place; pattern = pattern.now })) }
{
    let pattern = Pattern::new(alloc, pattern)?;
    let func = Sym {
        module: 0,
        item: place,
    };
    Ok(row_of_demand(&Demand::Func { func, pattern }))
}

/// The rows of what is left, in their order.
pub(crate) fn rows_of(alloc: Global, plan: &[Cut]) -> Result<IndexSet<Row>, OutOfMemory>
    requires short { All (λ cut. cut.ask.place < 2 ^ 32) plan.now }
    requires distinct { AllPairs (λ a b. a ≢ b) (rows_of_plan plan.now) }
    ensures { IfOk result (λ rows. rows.keys ≡ rows_of_plan plan.now) }
{
    let mut rows = IndexSet::new(alloc);
    for cut in plan {
        let row = row_of(alloc, cut.ask.place, cut.ask.pattern.items())?;
        rows.insert(row)?;
    }
    Ok(rows)
}

/// The place of what is asked for among what is left, found by hash. It is past the end where nothing asks for it.
pub(crate) fn place_in(
    alloc: Global,
    rows: &IndexSet<Row>,
    place: usize,
    pattern: &[Known],
) -> Result<usize, OutOfMemory>
    ensures { IfOk result (λ found. found ≡ place_among_rows rows.now.keys (record { place = place; pattern = pattern.now })) }
{
    if place >= MOST_ITEMS || pattern.len() > MOST_PARAMS {
        return Ok(rows.len());
    }
    let row = row_of(alloc, place, pattern)?;
    match rows.get_index_of(&row) {
        Some(found) => Ok(found),
        None => Ok(rows.len()),
    }
}

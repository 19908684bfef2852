//! What a row expands into.
use demand_core::Row;
use demands::Demand;
use ir_types::List;
use straight_plan::Fact;

/// A function that is demanded, with what is known of its results.
#[derive(Debug, Drop)]
pub(crate) struct Found {
    pub(crate) demand: Demand,
    pub(crate) facts: List<Fact>,
}

/// What a row expands into: its function, the rows that the function's body needs, and how many instructions and
/// terminators are left of it. A row of no function has nothing.
#[derive(Debug, Drop)]
pub(crate) struct Piece {
    pub(crate) found: Option<Found>,
    pub(crate) needs: List<Row>,
    pub(crate) size: u64,
}

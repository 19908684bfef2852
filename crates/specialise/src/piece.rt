//! What a demand expands into.
use demand_core::Row;
use ir_syntax::Body;
use ir_types::List;

/// The residual body of a function, the rows that it needs, and how many phis, instructions and terminators it has. A variable
/// has no body, and needs what its initialiser names.
#[derive(Debug, Drop)]
pub struct Piece {
    pub body: Option<Body>,
    pub calls: List<Row>,
    pub size: u64,
}

//! What workers do to the table.
use demand_core::Row;

/// A worker inserts a row, as a root or as one that a parent needs, or it claims a row. The rows have tickets, counted
/// from 0 in the order of their inserts; a parent is named by its ticket.
#[derive(Clone, Copy, Debug)]
pub enum TableEvent {
    Insert {
        worker: usize,
        row: Row,
        parent: Option<usize>,
    },
    Claim {
        worker: usize,
        ticket: usize,
    },
}

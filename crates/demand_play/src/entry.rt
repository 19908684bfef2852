//! What is known of a row once the table is closed.
use demand_core::Row;

/// A row of a closed table, the worker that inserted it, the place of the entry whose row needed it, if it isn't a root,
/// and the worker that claimed it, if any.
#[derive(Clone, Copy, Debug)]
pub struct Closed {
    pub row: Row,
    pub maker: usize,
    pub parent: Option<usize>,
    pub claimer: Option<usize>,
}

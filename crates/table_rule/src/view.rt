//! What a seat of the table knows.

/// What a seat knows, holds and has done. No value of it is made: a clause reads an array as a list of any length.
pub struct View {
    /// The seat's workers, and the least of them.
    pub workers: [u64; 0],
    pub lead: u64,
    /// The number of rows.
    pub limit: u64,
    /// The rows that are open, each with its worker, its number, and its words but the claim.
    pub held: [(u64, (u64, [u64; 0])); 0],
    /// Places of words with their values.
    pub known: [(u64, u64); 0],
    /// The rows that it published, each with its maker and its parent.
    pub made: [(u64, (u64, Option<u64>)); 0],
    /// The rows that it claimed, each with the worker for which it did.
    pub claims: [(u64, u64); 0],
    /// The slots that its loads found empty, from the first to the last.
    pub empties: [u64; 0],
}

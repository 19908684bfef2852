//! What is asked for, and what is left for it.
use crate::Fact;
use demands::Pattern;
use sqlite_items::Items as List;

/// A function of the module, by its place, with what is known of its arguments.
#[derive(Debug, Drop)]
pub struct Ask {
    pub place: usize,
    pub pattern: Pattern,
}

/// A function or copy that is asked for, with what is known of its results.
#[derive(Debug, Drop)]
pub struct Cut {
    pub ask: Ask,
    pub facts: List<Fact>,
}

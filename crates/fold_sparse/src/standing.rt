//! How a look stands in the search.

/// It wasn't active yet, it waits in the worklist, or it was looked at.
#[derive(Clone, Copy, Debug, PartialEq, Eq)]
pub(crate) enum Standing {
    Unopened,
    Queued,
    Idle,
}

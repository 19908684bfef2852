//! How a node stands in the search.

/// It wasn't reached yet; it is open, at a place of the stack; or its component was found, and it is on a cycle or not.
#[derive(Clone, Copy, Debug, PartialEq, Eq)]
pub(crate) enum Mark {
    Fresh,
    Open(usize),
    Closed(bool),
}

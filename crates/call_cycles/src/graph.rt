//! Edges between numbered nodes.
ghost use Rattle.std.specs.Prelude.{◌≡◌, ◌+◌, ◌<◌, ◌≤◌, ◌^◌, ◌↔◌, Some, IsTrue, length, slice_get, slice_index, MatchOption, OnSome};
ghost use Rattle.call_cycles.specs.Edges.{IsGraph, IsNode, IsEdge};

use ir_types::List;

/// The edges that leave node k go to the nodes in `ends` from the place `starts[k]` on, up to the place `starts[k + 1]`.
#[derive(Drop)]
pub(crate) struct Graph {
    pub(crate) starts: List<usize>,
    pub(crate) ends: List<usize>,
}

impl Graph {
    /// How many nodes there are.
    pub(crate) fn node_count(&self) -> usize
        requires { IsGraph self.now }
        ensures { result + 1 ≡ length self.now.starts }
    {
        self.starts.len() - 1
    }

    /// The place of a node's first edge.
    pub(crate) fn start(&self, node: usize) -> usize
        requires { node < length self.now.starts }
        ensures { result ≡ slice_index self.now.starts node }
    {
        self.starts.as_slice()[node]
    }

    /// The place behind a node's last edge.
    fn until(&self, node: usize) -> usize
        requires { IsNode self.now node }
        ensures { result ≡ slice_index self.now.starts (node + 1) }
    {
        let next = &self.starts.as_slice()[1..];
        next[node]
    }

    /// The node to which the edge at a place goes, or none where the place is past the node's edges.
    pub(crate) fn end(&self, node: usize, place: usize) -> Option<usize>
        requires graph { IsGraph self.now }
        requires node { IsNode self.now node }
        ensures edge { MatchOption result (slice_index self.now.starts (node + 1) ≤ place) (λ to. (place < slice_index self.now.starts (node + 1)) × (slice_get self.now.ends place ≡ Some to)) }
        ensures counted { OnSome result (place + 1 < 2 ^ 64) }
    {
        if place >= self.until(node) {
            return None;
        }
        Some(self.ends.as_slice()[place])
    }

    /// Whether an edge leads from the one node to the other.
    pub(crate) fn has_edge(&self, from: usize, to: usize) -> bool
        requires graph { IsGraph self.now }
        requires node { IsNode self.now from }
        ensures { IsTrue result ↔ IsEdge self.now from to }
    {
        for place in self.start(from)..self.until(from) {
            if self.ends.as_slice()[place] == to {
                return true;
            }
        }
        false
    }
}

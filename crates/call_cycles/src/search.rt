//! The search for components, by a stack of open nodes and a stack of the bounds between their components.
ghost use Rattle.std.specs.Prelude.{◌≡◌, ◌+◌, ◌-◌, ◌<◌, ◌≤◌, ℕ, [], ◌∷◌, ◌++◌, Some, OnOk, IfOk, Contains, length, slice_get, slice_set};
ghost use Rattle.call_cycles.specs.declared.mark.Mark.TheVariants.{Fresh, Open, Closed};
ghost use Rattle.call_cycles.specs.Edges.{IsGraph, IsNode};
ghost use Rattle.call_cycles.specs.Searching.{IsSearch, IsDone, IsRight, IsSettled, LeadTo, AreFewerFresh, AreMarked, IsCut, put_all, left};

use crate::graph::Graph;
use crate::mark::Mark;
use ir_types::{List, OutOfMemory};
use std::alloc::Global;

/// How each node stands, and the place of its next edge. The open nodes are on the stack, so that each leads to those behind it.
/// Their components begin at the places in `bounds`. Those that may have edges left have their places in `waiting`.
#[derive(Drop)]
pub(crate) struct Search {
    marks: List<Mark>,
    next: List<usize>,
    stack: Vec<usize>,
    bounds: List<usize>,
    waiting: List<usize>,
}

/// The last of the numbers, if there is one.
fn last(numbers: &List<usize>) -> Option<usize>
    ensures { result ≡ slice_get numbers.now (length numbers.now - 1) }
{
    numbers.as_slice().last().copied()
}

/// Takes away the bounds past a place.
fn cut(bounds: &mut List<usize>, place: usize)
    ensures cut { IsCut bounds.old bounds.new place }
    ensures last { (bound : ℕ) → slice_get bounds.new (length bounds.new - 1) ≡ Some bound → bound ≤ place }
{
    while let Some(bound) = last(bounds) {
        if bound <= place {
            return;
        }
        bounds.pop();
    }
}

/// Closes the nodes.
fn close_all(marks: &mut List<Mark>, nodes: &[usize], on_cycle: bool)
    requires { (k u : ℕ) → slice_get nodes.now k ≡ Some u → u < length marks.old }
    ensures { marks.new ≡ put_all nodes.now (Closed on_cycle) marks.old }
{
    for node in nodes {
        marks.set(*node, Mark::Closed(on_cycle));
    }
}

/// For each node a mark that says whether it is on a cycle.
pub(crate) fn marks_of(alloc: Global, graph: &Graph) -> Result<List<Mark>, OutOfMemory>
    requires { IsGraph graph.now }
    ensures { IfOk result (λ marks. AreMarked graph.now marks) }
{
    let mut search = Search::new(alloc, graph)?;
    for node in 0..graph.node_count() {
        search.visit(graph, node)?;
    }
    let Search {
        marks,
        next: _,
        stack: _,
        bounds: _,
        waiting: _,
    } = search;
    Ok(marks)
}

impl Search {
    /// Every node is fresh.
    fn new(alloc: Global, graph: &Graph) -> Result<Search, OutOfMemory>
        requires { IsGraph graph.now }
        ensures search { IfOk result (λ search. IsSearch graph.now search.marks search.next search.stack.items search.bounds search.waiting) }
        ensures none { IfOk result (λ search. search.stack.items ≡ []) }
    {
        let mut marks = List::new(alloc);
        let mut next = List::new(alloc);
        for node in 0..graph.node_count() {
            marks.push(Mark::Fresh)?;
            next.push(graph.start(node))?;
        }
        Ok(Search {
            marks,
            next,
            stack: Vec::new(alloc),
            bounds: List::new(alloc),
            waiting: List::new(alloc),
        })
    }

    /// How a node stands.
    fn mark(&self, node: usize) -> Mark
        requires { node < length self.now.marks }
        ensures { slice_get self.now.marks node ≡ Some result }
    {
        self.marks.as_slice()[node]
    }

    /// The open node at a place of the stack.
    fn node_at(&self, place: usize) -> usize
        requires { place < length self.now.stack.items }
        ensures { slice_get self.now.stack.items place ≡ Some result }
    {
        self.stack.as_slice()[place]
    }

    /// The place of a node's next edge.
    fn next_of(&self, node: usize) -> usize
        requires { node < length self.now.next }
        ensures { slice_get self.now.next node ≡ Some result }
    {
        self.next.as_slice()[node]
    }

    /// Finds the component of a node and of all to which it leads.
    fn visit(&mut self, graph: &Graph, node: usize) -> Result<(), OutOfMemory>
        requires graph { IsGraph graph.now }
        requires node { IsNode graph.now node }
        requires search { IsSearch graph.now self.old.marks self.old.next self.old.stack.items self.old.bounds self.old.waiting }
        requires none { self.old.stack.items ≡ [] }
        ensures search { OnOk result (IsSearch graph.now self.new.marks self.new.next self.new.stack.items self.new.bounds self.new.waiting) }
        ensures none { OnOk result (self.new.stack.items ≡ []) }
        ensures fewer { OnOk result (AreFewerFresh self.old.marks self.new.marks) }
        ensures visited { OnOk result (slice_get self.new.marks node ≡ Some Fresh → ⊥) }
    {
        match self.mark(node) {
            Mark::Fresh => {
                self.enter(node)?;
                self.walk(graph)?;
                Ok(())
            }
            Mark::Open(_) => Ok(()),
            Mark::Closed(_) => Ok(()),
        }
    }

    /// Opens a node, in a component of its own.
    fn enter(&mut self, node: usize) -> Result<(), OutOfMemory>
        requires { node < length self.old.marks }
        ensures marks { OnOk result (self.new.marks ≡ slice_set self.old.marks node (Open (length self.old.stack.items))) }
        ensures next { OnOk result (self.new.next ≡ self.old.next) }
        ensures stack { OnOk result (self.new.stack.items ≡ self.old.stack.items ++ node ∷ []) }
        ensures bounds { OnOk result (self.new.bounds ≡ self.old.bounds ++ length self.old.stack.items ∷ []) }
        ensures waiting { OnOk result (self.new.waiting ≡ self.old.waiting ++ length self.old.stack.items ∷ []) }
    {
        let place = self.stack.len();
        self.marks.set(node, Mark::Open(place));
        self.stack.push(node)?;
        self.bounds.push(place)?;
        self.waiting.push(place)?;
        Ok(())
    }

    /// Goes on until no node is open.
    fn walk(&mut self, graph: &Graph) -> Result<(), OutOfMemory>
        requires graph { IsGraph graph.now }
        requires search { IsSearch graph.now self.old.marks self.old.next self.old.stack.items self.old.bounds self.old.waiting }
        ensures search { OnOk result (IsSearch graph.now self.new.marks self.new.next self.new.stack.items self.new.bounds self.new.waiting) }
        ensures none { OnOk result (self.new.stack.items ≡ []) }
        ensures fewer { OnOk result (AreFewerFresh self.old.marks self.new.marks) }
    {
        while let Some(bound) = last(&self.bounds) {
            self.step(graph, bound)?;
        }
        Ok(())
    }

    /// Looks at a node of the last component that waits, or closes the component where none does.
    fn step(&mut self, graph: &Graph, bound: usize) -> Result<(), OutOfMemory>
        requires graph { IsGraph graph.now }
        requires search { IsSearch graph.now self.old.marks self.old.next self.old.stack.items self.old.bounds self.old.waiting }
        requires bound { slice_get self.old.bounds (length self.old.bounds - 1) ≡ Some bound }
        ensures search { OnOk result (IsSearch graph.now self.new.marks self.new.next self.new.stack.items self.new.bounds self.new.waiting) }
        ensures fewer { OnOk result (AreFewerFresh self.old.marks self.new.marks) }
        ensures left { OnOk result (left graph.now self.new.marks self.new.next self.new.bounds self.new.waiting < left graph.now self.old.marks self.old.next self.old.bounds self.old.waiting) }
    {
        match last(&self.waiting) {
            Some(place) => {
                if place >= bound {
                    self.look(graph, place)?;
                } else {
                    self.close(graph, bound);
                }
                Ok(())
            }
            None => {
                self.close(graph, bound);
                Ok(())
            }
        }
    }

    /// Follows the next edge of the node that waits last, or lets it wait no more.
    fn look(&mut self, graph: &Graph, place: usize) -> Result<(), OutOfMemory>
        requires graph { IsGraph graph.now }
        requires search { IsSearch graph.now self.old.marks self.old.next self.old.stack.items self.old.bounds self.old.waiting }
        requires waiting { slice_get self.old.waiting (length self.old.waiting - 1) ≡ Some place }
        requires last { (bound : ℕ) → Contains self.old.bounds bound → bound ≤ place }
        ensures search { OnOk result (IsSearch graph.now self.new.marks self.new.next self.new.stack.items self.new.bounds self.new.waiting) }
        ensures fewer { OnOk result (AreFewerFresh self.old.marks self.new.marks) }
        ensures left { OnOk result (left graph.now self.new.marks self.new.next self.new.bounds self.new.waiting < left graph.now self.old.marks self.old.next self.old.bounds self.old.waiting) }
    {
        let node = self.node_at(place);
        let edge = self.next_of(node);
        match graph.end(node, edge) {
            Some(to) => {
                self.follow(graph, place, to)?;
                self.next.set(node, edge + 1);
            }
            None => {
                self.waiting.pop();
            }
        }
        Ok(())
    }

    /// Enters the node to which an edge leads, or joins its component with those behind it. The edge comes from the node at a place
    /// of the stack.
    fn follow(&mut self, graph: &Graph, place: usize, to: usize) -> Result<(), OutOfMemory>
        requires search { IsSearch graph.now self.old.marks self.old.next self.old.stack.items self.old.bounds self.old.waiting }
        requires place { place < length self.old.stack.items }
        requires to { IsNode graph.now to }
        requires leads { LeadTo graph.now self.old.stack.items to }
        ensures search { OnOk result (IsSearch graph.now self.new.marks self.new.next self.new.stack.items self.new.bounds self.new.waiting) }
        ensures settled { OnOk result (IsSettled self.new.marks self.new.stack.items self.new.bounds place to) }
        ensures next { OnOk result (self.new.next ≡ self.old.next) }
        ensures stack { OnOk result ((j u : ℕ) → slice_get self.old.stack.items j ≡ Some u → slice_get self.new.stack.items j ≡ Some u) }
        ensures fewer { OnOk result (AreFewerFresh self.old.marks self.new.marks) }
        ensures left { OnOk result (left graph.now self.new.marks self.new.next self.new.bounds self.new.waiting ≤ left graph.now self.old.marks self.old.next self.old.bounds self.old.waiting) }
    {
        match self.mark(to) {
            Mark::Fresh => {
                self.enter(to)?;
                Ok(())
            }
            Mark::Open(at) => {
                cut(&mut self.bounds, at);
                Ok(())
            }
            Mark::Closed(_) => Ok(()),
        }
    }

    /// Closes the last component, which begins at a place of the stack and has none that waits.
    fn close(&mut self, graph: &Graph, bound: usize)
        requires graph { IsGraph graph.now }
        requires done { IsDone graph.now self.old.marks self.old.next self.old.stack.items self.old.bounds self.old.waiting bound }
        ensures search { IsSearch graph.now self.new.marks self.new.next self.new.stack.items self.new.bounds self.new.waiting }
        ensures fewer { AreFewerFresh self.old.marks self.new.marks }
        ensures left { left graph.now self.new.marks self.new.next self.new.bounds self.new.waiting < left graph.now self.old.marks self.old.next self.old.bounds self.old.waiting }
    {
        let on_cycle = self.is_on_cycle(graph, bound);
        close_all(
            &mut self.marks,
            self.stack.as_slice().split_at(bound).1,
            on_cycle,
        );
        self.stack.truncate(bound);
        self.bounds.pop();
    }

    /// Whether the nodes of the last component are on a cycle: there are several, or the one has an edge to itself.
    fn is_on_cycle(&self, graph: &Graph, bound: usize) -> bool
        requires graph { IsGraph graph.now }
        requires done { IsDone graph.now self.now.marks self.now.next self.now.stack.items self.now.bounds self.now.waiting bound }
        ensures { IsRight graph.now self.now.stack.items bound result }
    {
        if self.stack.len() - bound > 1 {
            return true;
        }
        let node = self.node_at(bound);
        graph.has_edge(node, node)
    }
}

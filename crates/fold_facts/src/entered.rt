//! Which blocks are entered from which.
ghost use Rattle.std.specs.Prelude.{◌≡◌, ℕ, true, false, None, IsSome, OnOk};
ghost use Rattle.fold_facts.specs.Entering.{entered_at, Puts, Lists};

use crate::edge::Edge;
use ir_types::OutOfMemory;
use std::alloc::Global;
use std::collections::HashMap;

/// For each pair of a block and one that it leads to, whether an edge between them is reached. Pairs are found by hash.
#[derive(Drop)]
pub(crate) struct Entered {
    pairs: HashMap<(usize, usize), bool>,
}

impl Entered {
    /// No pairs.
    pub(crate) fn new(alloc: Global) -> Entered
        ensures { (from to : ℕ) → entered_at result from to ≡ None }
    {
        Entered {
            pairs: HashMap::new(alloc),
        }
    }

    /// Whether an edge between two blocks is reached, if one leads to the other.
    pub(crate) fn of(&self, from: usize, to: usize) -> Option<bool>
        ensures { result ≡ entered_at self.now from to }
    {
        self.pairs.get(&(from, to)).copied()
    }

    /// Lists a pair, none of whose edges is reached.
    fn list(&mut self, from: usize, to: usize) -> Result<(), OutOfMemory>
        ensures { OnOk result (Puts self.old self.new from to false) }
    {
        self.pairs.insert((from, to), false)?;
        Ok(())
    }

    /// Lists the pairs of a block's edges, none of which is reached.
    pub(crate) fn list_all(&mut self, from: usize, edges: &[Edge]) -> Result<(), OutOfMemory>
        ensures { OnOk result (Lists self.old self.new from edges.now) }
    {
        for edge in edges {
            self.list(from, edge.to)?;
        }
        Ok(())
    }

    /// Says that an edge between two blocks is reached, the pair of which is listed.
    pub(crate) fn enter(&mut self, from: usize, to: usize)
        requires { IsSome (entered_at self.old from to) }
        ensures { Puts self.old self.new from to true }
    {
        match self.pairs.insert((from, to), true) {
            Ok(_) => {}
            Err(_) => unreachable!(),
        }
    }
}

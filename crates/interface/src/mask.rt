//! Masks, with the ranks of their places at hand.
ghost use Rattle.std.specs.Prelude.{◌≡◌, IfOk, length};
ghost use Rattle.interface.specs.Masks.{rank, is_chosen};
ghost use Rattle.interface.specs.Mirrors.Ranks.{ranks_from};

use ir_types::{List, OutOfMemory};
use std::alloc::Global;
use std::marker::Model;

/// Flags that choose some elements of a list, by their places. Contracts see the list of the flags.
#[derive(Debug, Drop)]
pub struct Mask {
    flags: List<bool>,
    ranks: List<usize>,
}

impl Model for Mask {
    ghost use Rattle.std.specs.Prelude.{◌≡◌, Bool, List};
    ghost use Rattle.interface.specs.Mirrors.Ranks.{ranks_from};

    ghost Value = { List Bool };

    ghost view = { λ mask. mask.flags };

    ghost invariant = { λ mask. mask.ranks ≡ ranks_from 0 mask.flags };
}

/// The ranks of the places of these flags, and of the one behind the last.
fn ranks_of(alloc: Global, flags: &[bool]) -> Result<List<usize>, OutOfMemory>
    ensures { IfOk result (λ ranks. ranks ≡ ranks_from 0 flags.now) }
{
    let mut ranks = List::new(alloc);
    let mut count = 0;
    for flag in flags {
        ranks.push(count)?;
        if *flag {
            count += 1;
        }
    }
    ranks.push(count)?;
    Ok(ranks)
}

impl Mask {
    /// The mask of these flags. `OutOfMemory` says that the allocator refused memory.
    pub fn of(alloc: Global, flags: List<bool>) -> Result<Mask, OutOfMemory>
        ensures { IfOk result (λ mask. mask ≡ flags) }
    {
        let ranks = ranks_of(alloc, flags.as_slice())?;
        Ok(Mask { flags, ranks })
    }

    /// Whether the element at a place is chosen. None is past the end.
    pub fn is_chosen(&self, k: usize) -> bool
        ensures { result ≡ is_chosen self.now k }
    {
        match self.flags.get(k) {
            Some(flag) => *flag,
            None => false,
        }
    }

    /// How many elements are chosen of those that have flags.
    fn count(&self) -> usize
        ensures { result ≡ rank self.now (length self.now) }
    {
        match self.ranks.get(self.flags.len()) {
            Some(count) => *count,
            None => unreachable!(),
        }
    }

    /// How many elements before a place are chosen: the place that a chosen one comes to.
    pub fn rank(&self, k: usize) -> usize
        ensures { result ≡ rank self.now k }
    {
        match self.ranks.get(k) {
            Some(rank) => *rank,
            None => self.count(),
        }
    }
}

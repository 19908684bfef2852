//! Patterns: what is known of each parameter of a function.
ghost use Rattle.std.specs.Prelude.{◌≡◌, ◌≤◌, length, IfOk};

use ir_types::{Known, OutOfMemory};
use smallvec::SmallVec;
use std::alloc::Global;
use std::marker::Model;

/// What is known of each parameter of a function, in their order. Contracts see the list of the items, at most 32. Up
/// to eight are kept in the value itself, so that most patterns need no allocator.
#[derive(Debug, Drop)]
pub struct Pattern {
    known: SmallVec<Known, 8>,
}

impl Model for Pattern {
    ghost use Rattle.std.specs.Prelude.{List, length, ◌≤◌};
    ghost use Rattle.ir_types.specs.declared.scalar.Known.{Known};

    ghost Value = { List Known };

    ghost view = { λ pattern. pattern.known.items };

    ghost invariant = { λ pattern. length pattern.known.items ≤ 32 };
}

impl Pattern {
    /// The pattern of these items, at most 32. `OutOfMemory` says that the allocator refused memory.
    pub fn new(alloc: Global, items: &[Known]) -> Result<Pattern, OutOfMemory>
        requires few { length items.now ≤ 32 }
        ensures { IfOk result (λ pattern. pattern ≡ items.now) }
    {
        let known = SmallVec::from_slice(alloc, items)?;
        Ok(Pattern { known })
    }

    /// The items of the pattern, from the first to the last. Takes no memory.
    pub fn items(&self) -> &[Known]
        ensures items { result.now ≡ self.now }
        ensures few { length result.now ≤ 32 }
    {
        self.known.as_slice()
    }

    /// The same pattern again. `OutOfMemory` says that the allocator refused memory.
    pub fn copy(&self, alloc: Global) -> Result<Pattern, OutOfMemory>
        ensures { IfOk result (λ pattern. pattern ≡ self.now) }
    {
        Pattern::new(alloc, self.items())
    }
}

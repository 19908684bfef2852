//! Names found again by hash, each with the first place where it stands in a list.
ghost use Rattle.std.specs.Prelude.{◌≡◌, ◌<◌, ◌^◌, ◌∷◌, [], ◌++◌, ℕ, List, length, map, IfSome, OnOk, OnErr};
ghost use Rattle.std.specs.Option.{ForSome};
ghost use Rattle.ir_scope.specs.Mirrors.Placed.{place_at, ArePlaces};

use indexmap::IndexMap;
use ir_types::OutOfMemory;
use std::alloc::Global;

/// For each name of a list the first place where it stands, and the first name that stands earlier.
#[derive(Drop)]
pub(crate) struct Places {
    first: IndexMap<Vec<u8>, usize>,
    doubled: Option<usize>,
    ghost small: { ForSome doubled (λ at. at < 2 ^ 63) },
}

impl Places {
    /// No names. Takes no memory.
    pub(crate) fn new(alloc: Global) -> Places
        ensures { ArePlaces (map (λ e. (e.0.items, e.1)) result.first.entries) result.doubled [] }
    {
        Places {
            first: IndexMap::new(alloc),
            doubled: None,
        }
    }

    /// The first place of a name. It is found by hash.
    pub(crate) fn place_of(&self, name: &[u8]) -> Option<usize>
        ensures { result ≡ place_at (map (λ e. (e.0.items, e.1)) self.now.first.entries) name.now }
    {
        self.first.get(name).copied()
    }

    /// How many names differ.
    pub(crate) fn len(&self) -> usize
        ensures value { result ≡ length self.now.first.entries }
        ensures small { result < 2 ^ 63 }
    {
        self.first.len()
    }

    /// The first name that stands earlier in the list.
    pub(crate) fn doubled(&self) -> Option<usize>
        ensures value { result ≡ self.now.doubled }
        ensures small { IfSome result (λ at. at < 2 ^ 63) }
    {
        self.doubled
    }

    /// Adds a name at the end of the list. `at` is its place there.
    pub(crate) fn add(&mut self, alloc: Global, name: &[u8], at: usize) -> Result<(), OutOfMemory>
        ensures ok { OnOk result ((names : List (List ℕ)) → length names ≡ at → ArePlaces (map (λ e. (e.0.items, e.1)) self.old.first.entries) self.old.doubled names
            → ArePlaces (map (λ e. (e.0.items, e.1)) self.new.first.entries) self.new.doubled (names ++ name.now ∷ [])) }
        ensures err { OnErr result (self.new.first.entries ≡ self.old.first.entries) }
        ensures same { OnErr result (self.new.doubled ≡ self.old.doubled) }
    {
        if self.first.contains_key(name) {
            if self.doubled.is_none() {
                self.doubled = Some(self.first.len());
            }
            return Ok(());
        }
        let owned = Vec::from_slice(alloc, name)?;
        self.first.insert(owned, at)?;
        Ok(())
    }
}

//! Names found again by hash, each with its place.
#![tactic(auto)]

ghost use Rattle.std.specs.Prelude.{◌≡◌, ◌<◌, ◌∷◌, [], ◌++◌, true, false, Some, length, IfOk, OnOk, OnErr, IfSome, MatchBool};
ghost use Rattle.name_table.specs.Places.{place_among, is_among};
ghost use Rattle.name_table.specs.Mirrors.Placed.{IsPlaced};

use indexmap::IndexSet;
use ir_types::OutOfMemory;
use std::alloc::Global;
use std::marker::Model;

/// The place of a name that was looked for.
#[derive(Clone, Copy, Debug, PartialEq, Eq)]
pub enum Placed {
    /// The name was there.
    Found(usize),
    /// The name is new, and stands at the end now.
    Added(usize),
}

/// Distinct names in the order in which they were added. Contracts see their list.
#[derive(Drop)]
pub struct Names {
    names: IndexSet<Vec<u8>>,
}

impl Model for Names {
    ghost use Rattle.std.specs.Prelude.{ℕ, List, map};

    ghost Value = { List (List ℕ) };

    ghost view = { λ n. map (λ name. name.items) n.names.keys };
}

impl Names {
    /// No names. Takes no memory.
    pub fn new(alloc: Global) -> Names
        ensures { result ≡ [] }
    {
        Names {
            names: IndexSet::new(alloc),
        }
    }

    pub fn len(&self) -> usize
        ensures { result ≡ length self.now }
    {
        self.names.len()
    }

    /// The place of a name, counted from 0 in the order of adding. It is found by hash.
    pub fn place_of(&self, name: &[u8]) -> Option<usize>
        ensures place { result ≡ place_among name.now self.now }
        ensures within { IfSome result (λ place. place < length self.now) }
    {
        self.names.get_index_of(name)
    }

    /// Adds a name at the end that isn't there.
    fn push(&mut self, alloc: Global, name: &[u8]) -> Result<(), OutOfMemory>
        requires { is_among name.now self.old ≡ false }
        ensures ok { OnOk result (self.new ≡ self.old ++ name.now ∷ []) }
        ensures err { OnErr result (self.new ≡ self.old) }
    {
        let owned = Vec::from_slice(alloc, name)?;
        self.names.insert(owned)?;
        Ok(())
    }

    /// Adds a name at the end, unless it is there: then the answer is false, and nothing changes.
    pub fn add(&mut self, alloc: Global, name: &[u8]) -> Result<bool, OutOfMemory>
        ensures ok { IfOk result (λ added. MatchBool added
            ((is_among name.now self.old ≡ false) × (self.new ≡ self.old ++ name.now ∷ []))
            ((is_among name.now self.old ≡ true) × (self.new ≡ self.old))) }
        ensures err { OnErr result (self.new ≡ self.old) }
    {
        match self.place_of(name) {
            Some(_) => Ok(false),
            None => {
                self.push(alloc, name)?;
                Ok(true)
            }
        }
    }

    /// The place of a name, which is added at the end where it isn't there. After `OutOfMemory` the names are as they
    /// were.
    pub fn find_or_add(&mut self, alloc: Global, name: &[u8]) -> Result<Placed, OutOfMemory>
        ensures ok { IfOk result (λ placed. IsPlaced name.now self.old self.new placed) }
        ensures err { OnErr result (self.new ≡ self.old) }
    {
        match self.place_of(name) {
            Some(place) => Ok(Placed::Found(place)),
            None => {
                let place = self.len();
                self.push(alloc, name)?;
                Ok(Placed::Added(place))
            }
        }
    }
}

//! The places of names in a written module.
ghost use Rattle.std.specs.Prelude.{◌≡◌, None, Some, IfOk, OnOk, if◌then◌else◌};
ghost use Rattle.winnowed_form.specs.declared.named.Named.TheVariants as written;
ghost use Rattle.winnowed_form.specs.declared.named.Named as names_of;
ghost use Rattle.reach_prune.specs.Mirrors.Places.{kept_place, place_in, is_name, HasRow};

use demand_core::Row;
use demands::row_of;
use ir_types::OutOfMemory;
use std::alloc::Global;
use std::collections::HashMap;
use winnowed_form::Named;

/// For names of a module, each found by hash, a place.
#[derive(Drop)]
pub(crate) struct Places {
    own: HashMap<usize, usize>,
    copies: HashMap<Row, usize>,
}

impl Places {
    /// No names.
    pub(crate) fn new(alloc: Global) -> Places
        ensures { (named : names_of.Named) → kept_place result named ≡ None }
    {
        Places {
            own: HashMap::new(alloc),
            copies: HashMap::new(alloc),
        }
    }

    /// The place of a name, if it has one.
    pub(crate) fn place_of(&self, named: &Named) -> Option<usize>
        requires short { HasRow named.now }
        ensures { result ≡ kept_place self.now named.now }
    {
        match named {
            Named::Own(k) => self.own.get(k).copied(),
            Named::CopyOf(d) => self.copies.get(&row_of(d)).copied(),
        }
    }

    /// The place of a name, or 0 where it has none.
    pub(crate) fn place_or_none(&self, named: &Named) -> usize
        requires short { HasRow named.now }
        ensures { result ≡ place_in self.now named.now }
    {
        match self.place_of(named) {
            Some(place) => place,
            None => 0,
        }
    }

    /// The place of the module's own item at a place, or 0 where it has none.
    pub(crate) fn own_place(&self, k: usize) -> usize
        ensures { result ≡ place_in self.now (written.Own k) }
    {
        match self.own.get(&k) {
            Some(place) => *place,
            None => 0,
        }
    }

    /// Gives a name a place.
    pub(crate) fn put(&mut self, named: &Named, place: usize) -> Result<(), OutOfMemory>
        requires short { HasRow named.now }
        ensures { OnOk result ((other : names_of.Named) → kept_place self.new other ≡ (if is_name named.now other then Some place else kept_place self.old other)) }
    {
        match named {
            Named::Own(k) => {
                self.own.insert(*k, place)?;
            }
            Named::CopyOf(d) => {
                self.copies.insert(row_of(d), place)?;
            }
        }
        Ok(())
    }
}

//! Which names a module defines and which it declares.
ghost use Rattle.std.specs.Prelude.{◌≡◌, [], ◌∷◌, All, IfOk, OnOk, flat_map, is_some};
ghost use Rattle.std.specs.List.{list_any};
ghost use Rattle.winnowed_form.specs.Names.{uses as used_by};
ghost use Rattle.reach_prune.specs.Mirrors.Members.{IsWritable};
ghost use Rattle.reach_prune.specs.Mirrors.Noting.{IsNoting, HasNoted};
ghost use Rattle.winnowed_form.specs.declared.named.Named as names_of;
ghost use Rattle.reach_prune.specs.Mirrors.Places.{kept_place, is_name, HasRow};
ghost use Rattle.reach_prune.specs.Mirrors.Shown.{shown};

use crate::grounds::Grounds;
use crate::places::Places;
use crate::used::uses;
use ir_types::{List, OutOfMemory};
use std::alloc::Global;
use winnowed_form::{Member, Named};

/// The names that a module defines, and those that are noted besides, each once and found by hash.
#[derive(Drop)]
pub(crate) struct Notes {
    pub(crate) seen: Places,
    pub(crate) defined: List<Named>,
    pub(crate) declared: List<Named>,
}

/// Names that are seen, each with the place 0.
fn seen_of(alloc: Global, names: &[Named]) -> Result<Places, OutOfMemory>
    requires short { All HasRow names.now }
    ensures { IfOk result (λ seen. (named : names_of.Named) → is_some (kept_place seen named) ≡ list_any (is_name named) names.now) }
{
    let mut seen = Places::new(alloc);
    for named in names {
        seen.put(named, 0)?;
    }
    Ok(seen)
}

impl Notes {
    /// Nothing is noted besides what is defined.
    pub(crate) fn of(alloc: Global, defined: List<Named>) -> Result<Notes, OutOfMemory>
        requires short { All HasRow defined }
        ensures noting { IfOk result IsNoting }
        ensures defined { IfOk result (λ notes. notes.defined ≡ defined) }
        ensures none { IfOk result (λ notes. notes.declared ≡ []) }
    {
        let seen = seen_of(alloc, defined.as_slice())?;
        Ok(Notes {
            seen,
            defined,
            declared: List::new(alloc),
        })
    }

    /// The names that the module defines.
    pub(crate) fn into_defined(self) -> List<Named>
        ensures { result ≡ self.defined }
    {
        self.defined
    }

    /// Notes a name, unless it is there.
    fn note(&mut self, alloc: Global, named: &Named) -> Result<(), OutOfMemory>
        requires noting { IsNoting self.old }
        requires short { HasRow named.now }
        ensures { OnOk result (HasNoted self.old (named.now ∷ []) self.new) }
    {
        match self.seen.place_of(named) {
            Some(_) => Ok(()),
            None => {
                self.seen.put(named, 0)?;
                self.declared.push(named.copy(alloc)?)?;
                Ok(())
            }
        }
    }

    /// Notes names, each unless it is there.
    fn note_all(&mut self, alloc: Global, names: &[Named]) -> Result<(), OutOfMemory>
        requires noting { IsNoting self.old }
        requires short { All HasRow names.now }
        ensures { OnOk result (HasNoted self.old names.now self.new) }
    {
        for named in names {
            self.note(alloc, named)?;
        }
        Ok(())
    }

    /// Notes what members of the module `home` name.
    pub(crate) fn note_members(
        &mut self,
        alloc: Global,
        g: &Grounds<'_>,
        home: usize,
        members: &[Member],
    ) -> Result<(), OutOfMemory>
        requires noting { IsNoting self.old }
        requires writable { All (IsWritable (shown g.now) home) members.now }
        ensures { OnOk result (HasNoted self.old (flat_map (used_by (shown g.now) home) members.now) self.new) }
    {
        for member in members {
            let names = uses(alloc, g, home, member)?;
            self.note_all(alloc, names.as_slice())?;
        }
        Ok(())
    }
}

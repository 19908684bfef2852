//! Numbers in groups by their keys.
ghost use Rattle.std.specs.Prelude.{◌≡◌, [], ◌∷◌, ◌++◌, IfOk, OnOk, slice_set};
ghost use Rattle.fold_sparse.specs.Groups.{AreGrouped, group_at};

use ir_types::{List, OutOfMemory};
use std::alloc::Global;

/// For each key below a number those that are paired with it.
#[derive(Drop)]
pub(crate) struct Groups {
    lists: Vec<List<usize>>,
}

/// Adds a number to the group of a key, if there is one.
fn put(lists: &mut Vec<List<usize>>, key: usize, number: usize) -> Result<(), OutOfMemory>
    ensures { OnOk result (lists.new.items ≡ slice_set lists.old.items key (group_at lists.old.items key ++ number ∷ [])) }
{
    if key < lists.len() {
        lists[key].push(number)?;
    }
    Ok(())
}

impl Groups {
    /// The second parts of the pairs, in order, by their first parts, each of which is to be below `count`.
    pub(crate) fn of(
        alloc: Global,
        count: usize,
        pairs: &[(usize, usize)],
    ) -> Result<Groups, OutOfMemory>
        ensures { IfOk result (λ groups. AreGrouped groups.lists.items count pairs.now) }
    {
        let mut lists = Vec::new(alloc);
        for _key in 0..count {
            lists.push(List::new(alloc))?;
        }
        for (key, number) in pairs {
            put(&mut lists, *key, *number)?;
        }
        Ok(Groups { lists })
    }

    /// Those that are paired with the key.
    pub(crate) fn group(&self, key: usize) -> &[usize]
        ensures { result.now ≡ group_at self.now.lists.items key }
    {
        match self.lists.get(key) {
            Some(list) => list.as_slice(),
            None => &[],
        }
    }
}

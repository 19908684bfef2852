//! What the solver lists of a function beforehand.
ghost use Rattle.std.specs.Prelude.{◌≡◌, ◌<◌, ◌^◌, IfOk, length};
ghost use Rattle.fold_facts.specs.OfFunction.{results_in};
ghost use Rattle.fold_sparse.specs.Planned.{IsPlan};

use crate::groups::Groups;
use crate::listing::{add_blocks, homes_of, sources_of, uses_of};
use crate::look::Look;
use ir_syntax::Block;
use ir_types::{List, OutOfMemory};
use std::alloc::Global;

/// The looks of a function; and by their numbers, for each result those that read it, once for each operand, for each block
/// those at the entries for its edges, and for each block those at its other instructions and its terminator.
#[derive(Drop)]
pub(crate) struct Plan {
    pub(crate) looks: List<Look>,
    pub(crate) uses: Groups,
    pub(crate) sources: Groups,
    pub(crate) homes: Groups,
}

impl Plan {
    /// Lists them.
    pub(crate) fn of(alloc: Global, blocks: &[Block]) -> Result<Plan, OutOfMemory>
        requires { length (results_in blocks.now) < 2 ^ 64 }
        ensures { IfOk result (IsPlan blocks.now) }
    {
        let mut looks = List::new(alloc);
        let results = add_blocks(&mut looks, blocks)?;
        let uses = uses_of(alloc, blocks, looks.as_slice())?;
        let sources = sources_of(alloc, looks.as_slice())?;
        let homes = homes_of(alloc, looks.as_slice())?;
        Ok(Plan {
            uses: Groups::of(alloc, results, uses.as_slice())?,
            sources: Groups::of(alloc, blocks.len(), sources.as_slice())?,
            homes: Groups::of(alloc, blocks.len(), homes.as_slice())?,
            looks,
        })
    }
}

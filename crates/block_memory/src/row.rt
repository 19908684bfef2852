//! The blocks of a module's variables.
ghost use Rattle.std.specs.Prelude.{◌≡◌, ◌++◌, ◌∷◌, [], ◌<◌, Option, Some, None, OnOk, OnErr, MatchOption, IsSome, length, slice_get, slice_set, option_and_then};

use crate::block::Block;
use ir_types::OutOfMemory;
use std::alloc::Global;
use std::marker::Model;
use std::mem::replace;

/// For each item of a module its block, where it is the definition of a variable.
#[derive(Debug, Drop)]
pub struct Row {
    blocks: Vec<Option<Block>>,
}

impl Model for Row {
    ghost use Rattle.std.specs.Prelude.{List, Option};
    ghost use Rattle.block_memory.specs.Blocks.{LiveBlock};

    ghost Value = { List (Option LiveBlock) };

    ghost view = { λ r. r.blocks.items };
}

impl Row {
    pub fn new(alloc: Global) -> Row
        ensures { result ≡ [] }
    {
        Row {
            blocks: Vec::new(alloc),
        }
    }

    /// Adds the next item's block.
    pub fn push(&mut self, block: Option<Block>) -> Result<(), OutOfMemory>
        ensures { OnOk result (self.new ≡ self.old ++ block ∷ []) }
    {
        self.blocks.push(block)?;
        Ok(())
    }

    /// The block of an item.
    pub fn get(&self, item: usize) -> &Block
        requires { IsSome (option_and_then (λ found. found) (slice_get self.now item)) }
        ensures { slice_get self.now item ≡ Some (Some result.now) }
    {
        match &self.blocks[item] {
            Some(block) => block,
            None => unreachable!(),
        }
    }

    /// Takes the block of an item out.
    pub fn take(&mut self, item: usize) -> Block
        requires { IsSome (option_and_then (λ found. found) (slice_get self.old item)) }
        ensures block { slice_get self.old item ≡ Some (Some result) }
        ensures rest { self.new ≡ slice_set self.old item None }
    {
        match replace(&mut self.blocks[item], None) {
            Some(block) => block,
            None => unreachable!(),
        }
    }

    /// Puts a block at an item.
    pub fn put(&mut self, item: usize, block: Block)
        requires { item < length self.old }
        ensures { self.new ≡ slice_set self.old item (Some block) }
    {
        self.blocks[item] = Some(block);
    }
}

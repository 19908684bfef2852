//! Made blocks.
ghost use Rattle.std.specs.Prelude.{◌≡◌};
ghost use Rattle.block_memory.specs.Blocks.{Live, Ended};
ghost use Rattle.block_memory.specs.Mirrors.Slots.{block_seen};

use crate::block::Block;
use std::marker::Model;
use std::mem::size_of;

/// A live block, or the size of one that has ended.
#[derive(Debug, Drop)]
pub enum State {
    Live(Block),
    Ended(usize),
}

/// A made block, in sixteen bytes.
#[derive(Debug, Drop)]
pub struct Slot {
    state: State,
}

impl Model for Slot {
    ghost use Rattle.block_memory.specs.Blocks.{MemoryBlock};

    ghost Value = { MemoryBlock };

    ghost use Rattle.block_memory.specs.Mirrors.Slots.{block_seen};

    ghost view = { λ s. block_seen s.state };
}

impl Slot {
    pub fn live(block: Block) -> Slot
        ensures { result ≡ Live block }
    {
        Slot {
            state: State::Live(block),
        }
    }

    pub fn ended(size: usize) -> Slot
        ensures { result ≡ Ended size }
    {
        Slot {
            state: State::Ended(size),
        }
    }

    pub fn state(&self) -> &State
        ensures { block_seen result.now ≡ self.now }
    {
        &self.state
    }

    pub fn into_state(self) -> State
        ensures { block_seen result ≡ self }
    {
        let Slot { state } = self;
        state
    }
}

/// A made block takes sixteen bytes, whether it is live or has ended.
const _: () = prove!(size_of::<Slot>() == 16);

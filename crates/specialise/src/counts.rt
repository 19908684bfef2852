//! How often numbers were counted.
ghost use Rattle.std.specs.Prelude.{◌≡◌, ◌+◌, ◌<◌, ◌-◌, ◌^◌, ◌==◌, ℕ, suc, OnOk, if◌then◌else◌};
ghost use Rattle.specialise.specs.Mirrors.Edges.{counted};

use ir_types::OutOfMemory;
use std::alloc::Global;
use std::collections::HashMap;

/// For each number how often it was counted.
#[derive(Drop)]
pub(crate) struct Counts {
    counts: HashMap<usize, usize>,
}

impl Counts {
    /// Nothing was counted.
    pub(crate) fn new(alloc: Global) -> Counts
        ensures { (k : ℕ) → counted result k ≡ 0 }
    {
        Counts {
            counts: HashMap::new(alloc),
        }
    }

    /// How often a number was counted.
    pub(crate) fn of(&self, number: usize) -> usize
        ensures { result ≡ counted self.now number }
    {
        match self.counts.get(&number) {
            Some(count) => *count,
            None => 0,
        }
    }

    /// Counts a number once more.
    pub(crate) fn add(&mut self, number: usize) -> Result<(), OutOfMemory>
        requires { counted self.old number < 2 ^ 64 - 1 }
        ensures { OnOk result ((k : ℕ) → counted self.new k ≡ (if number == k then suc (counted self.old k) else counted self.old k)) }
    {
        let count = self.of(number);
        self.counts.insert(number, count + 1)?;
        Ok(())
    }
}

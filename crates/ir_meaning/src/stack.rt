//! The calls of a running program.
ghost use Rattle.std.specs.Prelude.{◌≡◌, ◌++◌, ◌∷◌, [], OnOk};

use crate::frame::Frame;
use ir_types::OutOfMemory;
use std::mem::replace;

/// The innermost call, and those that wait for it, the root's first.
#[derive(Debug, Drop)]
pub struct Stack {
    pub top: Frame,
    pub below: Vec<Frame>,
}

impl Stack {
    /// Makes a call the innermost one: the one that was waits below it.
    pub fn enter(&mut self, frame: Frame) -> Result<(), OutOfMemory>
        ensures top { OnOk result (self.new.top ≡ frame) }
        ensures below { OnOk result (self.new.below.items ≡ self.old.below.items ++ self.old.top ∷ []) }
    {
        let caller = replace(&mut self.top, frame);
        self.below.push(caller)?;
        Ok(())
    }
}

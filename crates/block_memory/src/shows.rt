//! Blocks as a call outside is shown them.
ghost use Rattle.std.specs.Prelude.{◌≡◌, IfErr, IfOk, Some};
ghost use Rattle.block_memory.specs.Answers.{Gives, IsMeant};
ghost use Rattle.block_memory.specs.Blocks.{Live, LiveBlock, block_at};
ghost use Rattle.block_memory.specs.Mirrors.Spots.{IsLiveBlock};
ghost use Rattle.block_memory.specs.Shows.{IsShowCause, show};

use crate::parts::Parts;
use crate::slot::State;
use crate::{Memory, Name, Part, ShowFault, Val};
use int_ops::Cause;
use ir_syntax::Sym;
use ir_types::OutOfMemory;
use sqlite_items::Items as List;
use std::alloc::Global;

impl From<OutOfMemory> for ShowFault {
    ghost use Rattle.block_memory.specs.declared.value.ShowFault.TheVariants as fault;

    ghost from_gives = { λ _ shown. shown ≡ fault.OutOfMemory };

    fn from(_e: OutOfMemory) -> ShowFault {
        ShowFault::OutOfMemory
    }
}

impl Parts {
    /// The parts as a list.
    fn listed(&self, alloc: Global) -> Result<List<Part<Sym>>, OutOfMemory>
        ensures { IfOk result (λ parts. parts ≡ self.now) }
    {
        let mut parts = List::new(alloc);
        for at in 0..self.len() {
            parts.push(self.get(at))?;
        }
        Ok(parts)
    }
}

impl Memory {
    /// The parts of the whole block of a pointer. A block that has ended isn't shown (`EndedBlock`), and that is the one
    /// cause; the other error is want of memory.
    ///
    /// The value is to be a pointer into a block that isn't a function's, of the program or one that this memory made.
    pub fn show(&self, alloc: Global, at: &Val<Sym>) -> Result<List<Part<Sym>>, ShowFault>
        requires meant { IsMeant (show self.now at.now) }
        ensures ok { IfOk result (λ parts. show self.now at.now ≡ Gives parts) }
        ensures err { IfErr result (λ fault. IsShowCause self.now at.now fault) }
    {
        match at {
            Val::Num(_) => unreachable!(),
            Val::Null => unreachable!(),
            Val::At(of, _) => match of {
                Name::Var(sym) => Ok(self.vars[sym.module].get(sym.item).parts().listed(alloc)?),
                Name::Func(_) => unreachable!(),
                Name::Made(number) => match self.made[*number as usize].state() {
                    State::Live(block) => Ok(block.parts().listed(alloc)?),
                    State::Ended(_) => Err(ShowFault::Undefined(Cause::EndedBlock)),
                },
            },
            Val::Poison => unreachable!(),
        }
    }

    /// Whether the live block under a name may be written to. Takes no memory.
    ///
    /// The name is to be that of a live block with bytes.
    pub fn is_writable(&self, of: &Name<Sym>) -> bool
        requires { IsLiveBlock (block_at self.now of.now) }
        ensures { (block : LiveBlock) → block_at self.now of.now ≡ Some (Live block) → result ≡ block.writable }
    {
        self.block(of).is_writable()
    }
}

//! Loads.
ghost use Rattle.std.specs.Prelude.{◌≡◌};
ghost use Rattle.block_memory.specs.Answers.{IsMeant, answered};
ghost use Rattle.block_memory.specs.Loads.{load};

use crate::reads::bytes_of;
use crate::{Memory, Val};
use int_ops::Cause;
use ir_syntax::Sym;
use ir_types::Scalar;

impl Memory {
    /// The value of the type at an address (LLVM Language Reference Manual, "'load' Instruction"). The alignment is the
    /// exponent of two.
    ///
    /// The error is the first cause that holds, in this order: the address is poison (`PoisonAddress`), null
    /// (`NullAddress`), in a function's block (`NotBytes`) or in a block that has ended (`EndedBlock`); a byte of the value
    /// is outside the block (`OutsideBlock`); the offset is no multiple of the alignment (`Misaligned`). Takes no memory.
    ///
    /// The address is to be no number, and to name a block of the program or one that this memory made: what is asked has a
    /// meaning.
    pub fn load(&self, ty: Scalar, align: u8, at: &Val<Sym>) -> Result<Val<Sym>, Cause>
        requires meant { IsMeant (load self.now ty align at.now) }
        ensures { load self.now ty align at.now ≡ answered result }
    {
        let spot = self.spot(bytes_of(ty) as u64, align, false, at)?;
        Ok(self.block(&spot.of).parts().value(ty, spot.offset))
    }
}

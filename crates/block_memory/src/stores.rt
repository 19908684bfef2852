//! Stores.
ghost use Rattle.std.specs.Prelude.{◌≡◌, OnErr};
ghost use Rattle.block_memory.specs.Answers.{IsMeant, changed};
ghost use Rattle.block_memory.specs.Stores.{store};

use crate::reads::bytes_of;
use crate::{Memory, Val};
use int_ops::Cause;
use ir_syntax::Sym;
use ir_types::Scalar;

impl Memory {
    /// Stores a value of the type at an address (LLVM Language Reference Manual, "'store' Instruction"). The alignment is
    /// the exponent of two.
    ///
    /// The error is the first cause that holds, in the order of `load`, and last that the block may not be written to
    /// (`ReadOnly`). After an error nothing has changed. Takes no memory.
    ///
    /// The address is to be no number, and to name a block of the program or one that this memory made. The value is to be
    /// poison, a number below 2^w for an integer type of width w, or null or a pointer for `ptr`. So what is asked has a
    /// meaning.
    pub fn store(
        &mut self,
        ty: Scalar,
        align: u8,
        value: &Val<Sym>,
        at: &Val<Sym>,
    ) -> Result<(), Cause>
        requires meant { IsMeant (store self.old ty align value.now at.now) }
        ensures answer { store self.old ty align value.now at.now ≡ changed self.new result }
        ensures err { OnErr result (self.new ≡ self.old) }
    {
        let spot = self.spot(bytes_of(ty) as u64, align, true, at)?;
        let mut block = self.take(&spot.of);
        block.put(ty, spot.offset, value);
        self.put(&spot.of, block);
        Ok(())
    }
}

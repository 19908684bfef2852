//! Winnowing a linked program.
ghost use Rattle.std.specs.Prelude.{IfOk, IfErr};
ghost use Rattle.program_winnower.specs.Winnowing.{IsWinnowedProgram, RefusesProgram};

use crate::fault::{WinnowFault, of_needs, of_shape};
use crate::needed::needed_pieces;
use ir_syntax::Program;
use reach_prune::{Winnowed, assemble};
use std::alloc::Global;

/// The winnowed modules of a linked program: those of the demands that it needs.
///
/// `TooManyDemands` comes exactly where more than 65,536 demands are needed, `TooMuchCode` exactly where at most so many are and
/// their functions have more than 8,388,608 phis, instructions and terminators, and `NameClash` exactly where neither holds and a
/// copy has the name of an item; `OutOfMemory` may come in place of any answer.
pub fn winnow_program(alloc: Global, p: &Program) -> Result<Winnowed, WinnowFault>
    ensures winnowed { IfOk result (IsWinnowedProgram p.now) }
    ensures refused { IfErr result (RefusesProgram p.now) }
{
    let pieces = match needed_pieces(alloc, p) {
        Ok(pieces) => pieces,
        Err(fault) => return Err(of_needs(fault)),
    };
    match assemble(alloc, p, pieces) {
        Ok(made) => Ok(made),
        Err(fault) => Err(of_shape(fault)),
    }
}

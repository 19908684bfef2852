//! What a program needs.
ghost use Rattle.std.specs.Prelude.{◌≡◌, IfOk, IfErr, OnOk, map};
ghost use Rattle.std.specs.Ordering.{nat_cmp};
ghost use Rattle.std.specs.Cmp.Lexicographic.{slice_cmp};
ghost use Rattle.std.specs.List.Sorted.{IsStrictlySortedBy};
ghost use Rattle.program_winnower.specs.Winnowing.{AreFewPieces, NeedsTooMany, NeedsTooMuch, RefusesNeeds};

use call_cycles::on_cycles;
use demand_core::Row;
use fixed_point::{FixFault, least};
use ir_syntax::Program;
use ir_types::List;
use specialise::{Expander, Piece, roots};
use std::alloc::Global;

/// The rows of the demands that a program needs, in row order, each with what it expands into.
///
/// `TooManyDemands` comes exactly where more than 65,536 are needed, and `TooMuchCode` exactly where at most so many are and the
/// sizes of their pieces add to more than 8,388,608; `OutOfMemory` may come in place of any answer.
pub fn needed_pieces(alloc: Global, p: &Program) -> Result<List<(Row, Piece)>, FixFault>
    ensures needed { IfOk result (AreFewPieces p.now) }
    ensures order { IfOk result (λ pairs. IsStrictlySortedBy (slice_cmp nat_cmp) (map (λ pair. pair.0) pairs)) }
    ensures refused { IfErr result (RefusesNeeds p.now) }
    ensures not_too_many { OnOk result (NeedsTooMany p.now → ⊥) }
    ensures not_too_much { OnOk result (NeedsTooMuch p.now → ⊥) }
{
    let cycles = on_cycles(alloc, p)?;
    let rows = roots(alloc, p, &cycles)?;
    let expander = Expander::new(alloc, p)?;
    least(alloc, &expander, rows.as_slice(), List::new(alloc))
}

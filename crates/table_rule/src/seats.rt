//! Seats are split and joined.
ghost use Rattle.std.specs.Prelude.{◌≡◌, ◌<◌, [], length};
ghost use Rattle.table_rule.specs.Tells.{Fits};
ghost use Rattle.table_rule.specs.Views.{keeping, giving, both_of};

use crate::law::{Board, Cuts, Meets, Place};

/// A seat with the first of the workers of a seat that holds no row, made none and claimed none.
pub fn split(board: &Board, seat: &mut Place) -> Place
    requires fits { Fits seat.old.table_id board.now.shared.table_id board.now.shared.key }
    requires free { (seat.old.me.0.held ≡ []) × (seat.old.me.0.made ≡ []) × (seat.old.me.0.claims ≡ []) }
    ensures same { (seat.new.table_id ≡ seat.old.table_id) × (result.table_id ≡ seat.old.table_id) }
    ensures left { seat.new.me ≡ (keeping seat.old.me.0, seat.old.me.1) }
    ensures given { result.me ≡ (giving seat.old.me.0, []) }
{
    board.shared.split_seat::<Cuts>(seat)
}

/// The seat takes in the other.
pub fn join(board: &Board, seat: &mut Place, other: Place)
    requires fits { Fits seat.old.table_id board.now.shared.table_id board.now.shared.key }
    requires other_fits { Fits other.table_id board.now.shared.table_id board.now.shared.key }
    requires live { (0 < length seat.old.me.0.workers) × (0 < length other.me.0.workers) × (other.me.1 ≡ []) }
    ensures same { seat.new.table_id ≡ seat.old.table_id }
    ensures both { seat.new.me ≡ (both_of seat.old.me.0 other.me.0, seat.old.me.1) }
{
    board.shared.join_seat::<Meets>(seat, other);
}

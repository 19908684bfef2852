//! What holds of masks. This function does nothing: what it ensures is the law.
ghost use Rattle.std.specs.Prelude.{◌≡◌, ℕ, Bool, true, List, length, slice_get};
ghost use Rattle.interface.specs.Masks.{chosen, rank, is_chosen};

/// An element that is chosen stands at its rank among those that are, and so many are chosen as the rank of the place behind
/// the last says.
pub fn chosen_stand_at_their_ranks<X>()
    ensures at { (mask : List Bool) (xs : List X) (k : ℕ) → is_chosen mask k ≡ true → slice_get (chosen mask xs) (rank mask k) ≡ slice_get xs k }
    ensures count { (mask : List Bool) (xs : List X) → length (chosen mask xs) ≡ rank mask (length xs) }
{}

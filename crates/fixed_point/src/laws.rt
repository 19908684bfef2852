//! What holds of needed rows, whatever expands them. These functions do nothing: what they ensure is the law.
ghost use Rattle.std.specs.Prelude.{◌≡◌, ◌≢◌, ◌≤◌, ◌↔◌, ℕ, Bool, true, List, All, AllPairs, Contains, length, sum_by, bytes_eq};
ghost use Rattle.std.specs.List.{list_any};
ghost use Rattle.std.specs.Ordering.{nat_cmp};
ghost use Rattle.std.specs.Cmp.Lexicographic.{slice_cmp};
ghost use Rattle.std.specs.List.Sorted.{IsPermutation, IsStrictlySortedBy};
ghost use Rattle.demand_core.specs.Needed.{IsNeeded};
ghost use Rattle.fixed_point.specs.Needs.{IsLeast, AreAllNeeded, NeedsMoreThan, WeighsMoreThan};

/// There is one least set, and a row is in it just where it is needed. Where the needed rows are listed, it is the set of
/// the listed rows.
pub fn least_set_is_one()
    ensures unique { (needs : List ℕ → List (List ℕ)) (roots : List (List ℕ)) (s t : List ℕ → Bool)
        → IsLeast needs roots s → IsLeast needs roots t → (row : List ℕ) → s row ≡ t row }
    ensures needed { (needs : List ℕ → List (List ℕ)) (roots : List (List ℕ)) (s : List ℕ → Bool)
        → IsLeast needs roots s → (row : List ℕ) → (s row ≡ true) ↔ IsNeeded needs roots row }
    ensures listed { (needs : List ℕ → List (List ℕ)) (roots rows : List (List ℕ))
        → AreAllNeeded needs roots rows → IsLeast needs roots (λ row. list_any (bytes_eq row) rows) }
{}

/// The needed rows in row order are one list.
pub fn rows_are_one()
    ensures { (needs : List ℕ → List (List ℕ)) (roots rows others : List (List ℕ))
        → AreAllNeeded needs roots rows → AreAllNeeded needs roots others
        → IsStrictlySortedBy (slice_cmp nat_cmp) rows → IsStrictlySortedBy (slice_cmp nat_cmp) others → rows ≡ others }
{}

/// All needed rows are so in another order too.
pub fn rows_are_needed_in_any_order()
    ensures { (needs : List ℕ → List (List ℕ)) (roots rows others : List (List ℕ))
        → IsPermutation rows others → AreAllNeeded needs roots rows → AreAllNeeded needs roots others }
{}

/// Where distinct things all stand in a list, the list has at least as many, and the sizes of what stands in it add to at
/// least theirs.
pub fn part_is_no_larger<X>()
    ensures length { (xs ys : List X) → AllPairs (λ x y. x ≢ y) xs → All (Contains ys) xs → length xs ≤ length ys }
    ensures sizes { (size : X → ℕ) (xs ys : List X) → AllPairs (λ x y. x ≢ y) xs → All (Contains ys) xs
        → sum_by size xs ≤ sum_by size ys }
{}

/// Where a list of the needed rows is within a limit, none shows that they are past it.
pub fn limits_exclude()
    ensures rows { (needs : List ℕ → List (List ℕ)) (roots rows : List (List ℕ)) (most : ℕ)
        → AreAllNeeded needs roots rows → length rows ≤ most → NeedsMoreThan needs roots most → ⊥ }
    ensures sizes { (needs : List ℕ → List (List ℕ)) (size : List ℕ → ℕ) (roots rows : List (List ℕ)) (most : ℕ)
        → AreAllNeeded needs roots rows → sum_by size rows ≤ most → WeighsMoreThan needs size roots most → ⊥ }
{}

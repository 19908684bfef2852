//! What holds of lists of events and of entries, whatever expands the rows. These functions do nothing: what they ensure
//! is the law.
ghost use Rattle.std.specs.Prelude.{◌≡◌, ◌≢◌, ◌↔◌, ℕ, List, Some, All, AllPairs, Contains, IsPermutation, slice_get};
ghost use Rattle.demand_core.specs.Needed.{IsNeeded};
ghost use Rattle.demand_play.specs.declared.entry.Closed.{Closed};
ghost use Rattle.demand_play.specs.declared.event.TableEvent.{TableEvent};
ghost use Rattle.demand_play.specs.Cores.{core_of, rows_of};
ghost use Rattle.demand_play.specs.Entries.{AreSound, AreAsked};
ghost use Rattle.demand_play.specs.History.{core_in, history_of, in_order, placed, ticket_of};
ghost use Rattle.demand_play.specs.Legal.{IsLegal, IsFirstIllegal, IsSettled};

/// A legal list has no first illegal event, and another list has one at most.
pub fn answers_exclude()
    ensures legal { (needs : List ℕ → List (List ℕ)) (roots : List (List ℕ)) (events : List TableEvent) (at : ℕ)
        → IsLegal needs roots events → IsFirstIllegal needs roots events at → ⊥ }
    ensures first { (needs : List ℕ → List (List ℕ)) (roots : List (List ℕ)) (events : List TableEvent) (at other : ℕ)
        → IsFirstIllegal needs roots events at → IsFirstIllegal needs roots events other → at ≡ other }
{}

/// The rows of a legal list are distinct and needed, in whatever order the workers came.
pub fn legal_rows_are_needed()
    ensures distinct { (needs : List ℕ → List (List ℕ)) (roots : List (List ℕ)) (events : List TableEvent)
        → IsLegal needs roots events → AllPairs (λ row other. row ≢ other) (rows_of events) }
    ensures needed { (needs : List ℕ → List (List ℕ)) (roots : List (List ℕ)) (events : List TableEvent)
        → IsLegal needs roots events → All (IsNeeded needs roots) (rows_of events) }
{}

/// Where a legal list's core is settled, its rows are just the needed ones.
pub fn settled_rows_are_all_needed()
    ensures { (needs : List ℕ → List (List ℕ)) (roots : List (List ℕ)) (events : List TableEvent)
        → IsLegal needs roots events → IsSettled needs roots (core_of events)
        → (row : List ℕ) → Contains (rows_of events) row ↔ IsNeeded needs roots row }
{}

/// The history of sound entries is legal where their rows are roots or asked for by their parents. It has each entry
/// once, an entry's ticket is its position there, and its core has the rows, makers, parents and claims of the entries.
pub fn history_is_legal()
    ensures once { (entries : List Closed) → AreSound entries → IsPermutation (placed entries) (in_order entries) }
    ensures tickets { (entries : List Closed) → AreSound entries → (ticket : ℕ) (entry : ℕ × Closed)
        → slice_get (in_order entries) ticket ≡ Some entry → ticket_of (in_order entries) entry.0 ≡ Some ticket }
    ensures core { (entries : List Closed) → core_of (history_of entries) ≡ core_in (in_order entries) }
    ensures legal { (needs : List ℕ → List (List ℕ)) (roots : List (List ℕ)) (entries : List Closed)
        → AreSound entries → AreAsked needs roots entries → IsLegal needs roots (history_of entries) }
{}

/// The rows of sound entries that are roots or asked for by their parents are needed.
pub fn entries_are_needed()
    ensures { (needs : List ℕ → List (List ℕ)) (roots : List (List ℕ)) (entries : List Closed)
        → AreSound entries → AreAsked needs roots entries → All (λ entry. IsNeeded needs roots entry.row) entries }
{}

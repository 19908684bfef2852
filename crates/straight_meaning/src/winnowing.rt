//! What is left of a module means what the module means. Each law is the contract of a function that does nothing.
ghost use Rattle.std.specs.Prelude.{◌≡◌, ◌≤◌, ◌/◌, ℕ, Some, List, slice_get, option_map};
ghost use Rattle.ir_types.specs.declared.scalar.Known.{Known};
ghost use Rattle.ir_syntax.specs.declared.item.Module.{Module};
ghost use Rattle.ir_syntax.specs.Straight.{IsStraight};
ghost use Rattle.demands.specs.Demands.{IsFunctionFor};
ghost use Rattle.straight_plan.specs.declared.cut.Ask.{Ask};
ghost use Rattle.straight_plan.specs.declared.cut.Cut.{Cut};
ghost use Rattle.straight_plan.specs.Left.{IsPlan, left_module};
ghost use Rattle.straight_meaning.specs.declared.session.Session.{Session};
ghost use Rattle.straight_meaning.specs.Run.{Conforms, moment, begun};
ghost use Rattle.straight_meaning.specs.Kept.{Agree, session_in, running_asks, kept_steps, longest_block};
ghost use Rattle.straight_meaning.specs.Matching.{left_moment};
ghost use Rattle.straight_meaning.specs.Lawful.{IsFor};

/// For any plan, by any closed assignments, that has the entry and what its bodies ask for: after each step the two
/// runs match.
pub fn runs_match()
    ensures { (m : Module) (entry : ℕ) (args : List Known) (start : Ask) (plan : List Cut) (s : Session) (n : ℕ) →
        IsFor m entry args start plan → Conforms entry args s →
        moment (left_module m start plan) (session_in m (left_module m start plan) s) (kept_steps m start plan s n)
        ≡ option_map (left_moment m.items start plan (running_asks m start plan s n) (kept_steps m start plan s n)) (moment m s n) }
{}

/// What is left means what the module means: after any number of steps of a session the outside sees the same of
/// both, and what is left makes at least one step for each longest block.
pub fn meaning_is_kept()
    ensures agree { (m : Module) (entry : ℕ) (args : List Known) (start : Ask) (plan : List Cut) (s : Session) →
        IsFor m entry args start plan → Conforms entry args s → Agree m (left_module m start plan) start plan s }
    ensures bound { (m : Module) (entry : ℕ) (args : List Known) (start : Ask) (plan : List Cut) (s : Session) (n : ℕ) →
        IsFor m entry args start plan → Conforms entry args s → begun m s n / longest_block m ≤ kept_steps m start plan s n }
{}

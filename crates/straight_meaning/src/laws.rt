//! Laws of the meaning. Each is the contract of a function that does nothing.
ghost use Rattle.std.specs.Prelude.{◌≡◌, ◌⊎◌, ℕ, Some, List, IsSome, slice_get};
ghost use Rattle.ir_types.specs.declared.scalar.Known.{Known};
ghost use Rattle.ir_syntax.specs.declared.item.Module.{Module};
ghost use Rattle.ir_syntax.specs.Straight.{IsStraight};
ghost use Rattle.demands.specs.Demands.{IsFunctionFor};
ghost use Rattle.straight_meaning.specs.declared.session.Stepped.{Stepped};
ghost use Rattle.straight_meaning.specs.declared.session.Session.{Session};
ghost use Rattle.straight_meaning.specs.declared.session.Run.{Run};
ghost use Rattle.straight_meaning.specs.declared.session.Phase.TheVariants.{Running, Finished};
ghost use Rattle.straight_meaning.specs.State.{State};
ghost use Rattle.straight_meaning.specs.Step.{Steps};
ghost use Rattle.straight_meaning.specs.Run.{Moment, moment, run, begun, Conforms};

/// A state has one next state at most, and one answer.
pub fn step_is_determined()
    ensures answer { (m : Module) (s t u : State) (a b : Stepped) → Steps m s a t → Steps m s b u → a ≡ b }
    ensures next { (m : Module) (s t u : State) (a b : Stepped) → Steps m s a t → Steps m s b u → t ≡ u }
{}

/// A run completes the steps that it begins.
pub fn steps_are_counted()
    ensures { (m : Module) (s : Session) (n : ℕ) (r : Run) → run m s n ≡ Some r → r.steps ≡ begun m s n }
{}

/// A run of straight-line functions never gets stuck and is never undefined: it goes on until all roots have
/// returned, and a call that runs has a next step.
pub fn run_goes_on()
    ensures run { (m : Module) (entry : ℕ) (args : List Known) (s : Session) (n : ℕ) → IsStraight m → IsFunctionFor args (slice_get m.items entry) →
        Conforms entry args s → IsSome (run m s n) }
    ensures phase { (m : Module) (entry : ℕ) (args : List Known) (s : Session) (n : ℕ) (x : Moment) → IsStraight m → IsFunctionFor args (slice_get m.items entry) →
        Conforms entry args s → moment m s n ≡ Some x → (x.phase ≡ Running) ⊎ (x.phase ≡ Finished) }
    ensures next { (m : Module) (entry : ℕ) (args : List Known) (s : Session) (n : ℕ) (x : Moment) → IsStraight m → IsFunctionFor args (slice_get m.items entry) →
        Conforms entry args s → moment m s n ≡ Some x → x.phase ≡ Running → (a : Stepped) × (t : State) × Steps m x.state a t }
{}

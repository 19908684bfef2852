//! What holds of the runs of every program. The function does nothing: what it ensures is the law.
ghost use Rattle.std.specs.Prelude.{ℕ, IsSome, All};
ghost use Rattle.ir_syntax.specs.Programs.{ProgramData, IsProgram};
ghost use Rattle.ir_steps.specs.Reached.{IsRoot};
ghost use Rattle.session_runs.specs.declared.session.Session.{Session};
ghost use Rattle.session_runs.specs.Runs.{run};

use ir_steps::never_stuck;

/// A run of a linked program goes on: after any number of begun steps it has a trace and a phase, whatever the replies are.
/// Each root is a function with a body, and has a number of its type for each parameter.
pub fn run_goes_on()
    ensures { (p : ProgramData) (s : Session) (n : ℕ) → IsProgram p → All (λ root. IsRoot p root.func root.args) s.roots → IsSome (run p s n) }
{
    never_stuck();
}

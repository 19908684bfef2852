//! How a run of an entry ended.
ghost use Rattle.std.specs.Prelude.{◌≡◌};
ghost use Rattle.program_runner.specs.Ending as ending;

use block_memory::Val;
use ir_syntax::SymName;
use ir_types::Scalar;
use session_runs::{Event, Phase, Run};
use sqlite_items::Items as List;

/// How a run of an entry ended: its phase, what the entry returned where it did, the type that it returns, and how many steps were
/// completed.
#[derive(Debug, Drop)]
pub struct Ended {
    pub phase: Phase,
    pub value: Option<Val<SymName>>,
    pub ty: Option<Scalar>,
    pub steps: u64,
}

/// How the run ended, of an entry that returns this type.
pub(crate) fn ended_of(returns: Option<Scalar>, run: Run) -> Ended
    ensures { result ≡ ending.ended_of returns run }
{
    let Run {
        trace,
        phase,
        steps,
    } = run;
    Ended {
        phase,
        value: returned(trace),
        ty: returns,
        steps,
    }
}

// What a trace says last that a root returned.
fn returned(mut trace: List<Event>) -> Option<Val<SymName>>
    ensures { result ≡ ending.returned trace }
{
    match trace.pop() {
        Some(Event::Returned(value)) => value,
        Some(Event::Asked(_call, _reply)) => None,
        None => None,
    }
}

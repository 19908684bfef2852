//! What the solver by a worklist gives, with a counter of steps.
ghost use Rattle.std.specs.Prelude.{◌≡◌, ◌<◌, IfOk};
ghost use Rattle.ir_syntax.specs.SoundFunctions.{IsSoundFunction};
ghost use Rattle.fold_facts.specs.OfFunction.{AreKnownOf, IsAssignmentOf};

use fold_facts::Assignment;
use fold_sparse::solve;
use ir_syntax::{Body, Func};
use ir_types::{Known, OutOfMemory};
use occam_base::Steps;
use std::alloc::Global;
use std::sync::ledger::{Blank, Ledger};

/// The assignment, and how many transfers were made.
pub(crate) fn solved<L: Ledger>(
    alloc: Global,
    func: &Func,
    known: &[Known],
    blank: Blank,
) -> Result<(Assignment, u64), OutOfMemory>
    requires name { blank.name ≡ L.name }
    requires parts { blank.parts ≡ L.parts }
    requires some { 0 < L.parts }
    requires known { AreKnownOf func.now known.now }
    requires sound { IsSoundFunction func.now }
    ensures { IfOk result (λ pair. IsAssignmentOf func.now pair.0) }
{
    let mut steps: Steps<L> = Steps::new(blank);
    let a = solve(alloc, func, known, &mut steps)?;
    Ok((a, steps.shown()))
}

/// How many transfers the solver may make: one for each phi, instruction and terminator, and three for each operand.
pub(crate) fn most_transfers(body: &Body) -> u64 {
    let places = body.count() as u64;
    operand_count(body).saturating_mul(3).saturating_add(places)
}

fn operand_count(body: &Body) -> u64 {
    let mut count = 0u64;
    for block in body.blocks.as_slice() {
        for phi in block.phis.as_slice() {
            count = count.saturating_add(phi.entries.len() as u64);
        }
        for inst in block.insts.as_slice() {
            count = count.saturating_add(inst.operand_count() as u64);
        }
        if block.term.operand().is_some() {
            count = count.saturating_add(1);
        }
    }
    count
}

//! What assembling goes by.
ghost use Rattle.std.specs.Prelude.{◌≡◌, IfOk};
ghost use Rattle.interface.specs.Asked.{AreCycles};
ghost use Rattle.winnowed_form.specs.Basis.{basis};
ghost use Rattle.reach_prune.specs.Mirrors.Shown.{shown};

use call_cycles::on_cycles;
use demand_core::Row;
use interface::roots;
use ir_syntax::Program;
use ir_types::{List, OutOfMemory};
use std::alloc::Global;

/// A program, its call cycles, and the row of its entry's root.
#[derive(Drop)]
pub(crate) struct Grounds<'p> {
    pub(crate) program: &'p Program,
    pub(crate) cycles: List<List<bool>>,
    pub(crate) entry: Option<Row>,
}

impl<'p> Grounds<'p> {
    /// Those of a program. `OutOfMemory` says that the allocator refused memory.
    pub(crate) fn of(alloc: Global, program: &'p Program) -> Result<Grounds<'p>, OutOfMemory>
        ensures basis { IfOk result (λ g. shown g ≡ basis program.now g.cycles) }
        ensures cycles { IfOk result (λ g. AreCycles program.now g.cycles) }
    {
        let cycles = on_cycles(alloc, program)?;
        let rows = roots(alloc, program, &cycles)?;
        let entry = rows.get(0).copied();
        Ok(Grounds {
            program,
            cycles,
            entry,
        })
    }
}

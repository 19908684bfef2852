//! Names in written modules.
ghost use Rattle.std.specs.Prelude.{◌≡◌, IfOk};

use demands::Demand;
use ir_types::OutOfMemory;
use std::alloc::Global;

/// What a name in a written module stands for: the module's own item at a place, or the copy of a demand.
#[derive(Debug, Drop)]
pub enum Named {
    Own(usize),
    CopyOf(Demand),
}

/// The same demand again.
pub fn copied_demand(alloc: Global, d: &Demand) -> Result<Demand, OutOfMemory>
    ensures { IfOk result (λ copy. copy ≡ d.now) }
{
    match d {
        Demand::Func { func, pattern } => Ok(Demand::Func {
            func: *func,
            pattern: pattern.copy(alloc)?,
        }),
        Demand::Var { var } => Ok(Demand::Var { var: *var }),
    }
}

impl Named {
    /// The same name again.
    pub fn copy(&self, alloc: Global) -> Result<Named, OutOfMemory>
        ensures { IfOk result (λ copy. copy ≡ self.now) }
    {
        match self {
            Named::Own(k) => Ok(Named::Own(*k)),
            Named::CopyOf(d) => Ok(Named::CopyOf(copied_demand(alloc, d)?)),
        }
    }
}

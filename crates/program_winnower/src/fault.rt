//! Why a program isn't winnowed.
ghost use Rattle.std.specs.Prelude.{◌≡◌};
ghost use Rattle.program_winnower.specs.Winnowing as winnowing;

use fixed_point::FixFault;
use ir_types::Bytes;
use reach_prune::ShapeFault;

/// Why a program isn't winnowed: more than 65,536 demands are needed; at most so many, whose functions have more than 8,388,608
/// phis, instructions and terminators; a copy has the name of an item, of which this is the first; or memory was refused.
#[derive(Debug, Drop)]
pub enum WinnowFault {
    TooManyDemands,
    TooMuchCode,
    NameClash { symbol: Bytes },
    OutOfMemory,
}

/// The same fault of what is needed.
pub(crate) fn of_needs(fault: FixFault) -> WinnowFault
    ensures { result ≡ winnowing.of_needs fault }
{
    match fault {
        FixFault::TooManyDemands => WinnowFault::TooManyDemands,
        FixFault::TooMuchCode => WinnowFault::TooMuchCode,
        FixFault::OutOfMemory => WinnowFault::OutOfMemory,
    }
}

/// The same fault of what is assembled.
pub(crate) fn of_shape(fault: ShapeFault) -> WinnowFault
    ensures { result ≡ winnowing.of_shape fault }
{
    match fault {
        ShapeFault::NameClash { symbol } => WinnowFault::NameClash { symbol },
        ShapeFault::OutOfMemory => WinnowFault::OutOfMemory,
    }
}

//! Why modules don't link.
use ir_types::{Bytes, OutOfMemory};
use std::alloc::AllocError;
use std::fmt;

/// Why modules don't link, with the symbol's name. The rules are tested in this order.
#[derive(Debug, Drop)]
pub enum LinkFault {
    /// An external name has two definitions.
    TwoDefinitions { symbol: Bytes },
    /// A body or an initialiser names an external name that has no definition, and is no intrinsic, no built-in function
    /// and no function that is listed as outside.
    NoDefinition { symbol: Bytes },
    /// Two items of an external name aren't both variables or both functions of one type, or an item of a built-in
    /// function's name that nothing defines isn't a function of its type.
    TypeClash { symbol: Bytes },
    /// The entry isn't an external function with a body.
    NoEntry { symbol: Bytes },
    /// The entry has a parameter or a result of type `ptr`, or other parameters than the manifest has arguments, or an
    /// argument isn't in -2^(w-1) to 2^w - 1 for the width w of its parameter.
    EntryShape { symbol: Bytes },
    /// An export isn't an external function with a body.
    NoExport { symbol: Bytes },
    /// An export has a parameter or a result of type `ptr`.
    ExportShape { symbol: Bytes },
    /// The allocator refused memory.
    OutOfMemory,
}

impl From<OutOfMemory> for LinkFault {
    ghost use Rattle.std.specs.Prelude.{◌≡◌};
    ghost use Rattle.linker.specs.declared.fault.LinkFault.TheVariants.{OutOfMemory};

    ghost from_gives = { λ _ fault. fault ≡ OutOfMemory };

    fn from(_fault: OutOfMemory) -> LinkFault {
        LinkFault::OutOfMemory
    }
}

impl From<AllocError> for LinkFault {
    ghost use Rattle.std.specs.Prelude.{◌≡◌};
    ghost use Rattle.linker.specs.declared.fault.LinkFault.TheVariants.{OutOfMemory};

    ghost from_gives = { λ _ fault. fault ≡ OutOfMemory };

    fn from(_fault: AllocError) -> LinkFault {
        LinkFault::OutOfMemory
    }
}

impl fmt::Display for LinkFault {
    fn fmt<W: fmt::Write>(&self, f: &mut fmt::Formatter<W>) -> fmt::Result {
        match self {
            LinkFault::TwoDefinitions { .. } => f.write_str("two definitions of one external name"),
            LinkFault::NoDefinition { .. } => f.write_str("no definition of an external name"),
            LinkFault::TypeClash { .. } => f.write_str("items of one external name differ in type"),
            LinkFault::NoEntry { .. } => f.write_str("no such entry"),
            LinkFault::EntryShape { .. } => f.write_str("the entry has another shape"),
            LinkFault::NoExport { .. } => f.write_str("no such export"),
            LinkFault::ExportShape { .. } => f.write_str("an export has another shape"),
            LinkFault::OutOfMemory => f.write_str("out of memory"),
        }
    }
}

impl std::error::Error for LinkFault {}

//! Refusals.
ghost use Rattle.std.specs.Prelude.{◌≡◌, ◌⊎◌};
ghost use Rattle.program_loader.specs.Refusing.{refusal};
ghost use Rattle.occam_tool.specs.Steps.{fault_code};

use crate::{Detail, Refusal};
use fixed_point::FixFault;
use ir_types::Bytes;
use occam_base::Code;
use std::alloc::Global;

/// The refusal of want of memory.
pub fn out_of_memory() -> Refusal
    ensures { result ≡ refusal Code.OutOfMemory Detail.Nothing }
{
    Refusal {
        code: Code::OutOfMemory,
        detail: Detail::Nothing,
    }
}

/// The refusal of what is needed past a limit, or of want of memory.
pub fn unplanned(fault: FixFault) -> Refusal
    ensures { result ≡ refusal (fault_code fault) Detail.Nothing }
{
    let code = match fault {
        FixFault::TooManyDemands => Code::TooManyDemands,
        FixFault::TooMuchCode => Code::TooMuchCode,
        FixFault::OutOfMemory => Code::OutOfMemory,
    };
    Refusal {
        code,
        detail: Detail::Nothing,
    }
}

/// A refusal that names a file, or want of memory.
pub fn of_file(alloc: Global, code: Code, file: &[u8]) -> Refusal
    ensures { (result ≡ refusal code (Detail.File file.now)) ⊎ (result ≡ refusal Code.OutOfMemory Detail.Nothing) }
{
    match Bytes::from_slice(alloc, file) {
        Ok(file) => Refusal {
            code,
            detail: Detail::File(file),
        },
        Err(_) => out_of_memory(),
    }
}

/// The refusal of a file that isn't of the form, or want of memory.
pub fn not_of_form(alloc: Global, file: &[u8]) -> Refusal
    ensures { (result ≡ refusal Code.NotInSubset (Detail.At file.now 0)) ⊎ (result ≡ refusal Code.OutOfMemory Detail.Nothing) }
{
    match Bytes::from_slice(alloc, file) {
        Ok(file) => Refusal {
            code: Code::NotInSubset,
            detail: Detail::At(file, 0),
        },
        Err(_) => out_of_memory(),
    }
}

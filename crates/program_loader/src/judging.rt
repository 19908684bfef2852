//! From the text of a module to a sound module.
ghost use Rattle.std.specs.Prelude.{IfOk};
ghost use Rattle.ir_syntax.specs.Formed.{Formed};
ghost use Rattle.ir_syntax.specs.Typed.{Typed};
ghost use Rattle.program_loader.specs.Steps.{IsJudged, IsChecked};

use crate::Refusal;
use crate::refusing::{of_item, of_place};
use ir_check::{TypeFault, check_types};
use ir_parser::{ReadFault, read_module, what_is_spelled_is_formed};
use ir_paths::{PathFault, check_paths};
use ir_syntax::Module;
use ir_types::OutOfMemory;
use occam_base::Code;
use std::alloc::Global;

/// What the text of a module is found to be.
#[derive(Debug, Drop)]
pub enum Judged {
    /// It spells this module, which is well typed and definite.
    Sound(Module),
    Refused(Refusal),
}

/// Reads and checks the text of the module of a file.
pub fn judge(alloc: Global, file: &[u8], text: &[u8]) -> Result<Judged, OutOfMemory>
    ensures { IfOk result (IsJudged file.now text.now) }
{
    what_is_spelled_is_formed();
    match read_module(alloc, text) {
        Ok(module) => check(alloc, file, module),
        Err(ReadFault::BadByte { at }) => {
            let refusal = of_place(alloc, Code::BadByte, file, at)?;
            Ok(Judged::Refused(refusal))
        }
        Err(ReadFault::NotInSubset { entity }) => {
            let refusal = of_place(alloc, Code::NotInSubset, file, entity)?;
            Ok(Judged::Refused(refusal))
        }
        Err(ReadFault::OutOfMemory) => Err(OutOfMemory),
    }
}

// Checks types before paths.
fn check(alloc: Global, file: &[u8], module: Module) -> Result<Judged, OutOfMemory>
    requires { Formed «module» }
    ensures { IfOk result (IsChecked file.now «module») }
{
    match check_types(alloc, &module) {
        Ok(()) => check_definite(alloc, file, module),
        Err(TypeFault::IllTyped { item }) => {
            let refusal = of_item(alloc, Code::IllTyped, file, &module.items.as_slice()[item])?;
            Ok(Judged::Refused(refusal))
        }
        Err(TypeFault::OutOfMemory) => Err(OutOfMemory),
    }
}

fn check_definite(alloc: Global, file: &[u8], module: Module) -> Result<Judged, OutOfMemory>
    requires formed { Formed «module» }
    requires typed { Typed «module» }
    ensures { IfOk result (IsChecked file.now «module») }
{
    match check_paths(alloc, &module) {
        Ok(()) => Ok(Judged::Sound(module)),
        Err(PathFault::NotDefinite { item }) => {
            let refusal = of_item(
                alloc,
                Code::NotDefinite,
                file,
                &module.items.as_slice()[item],
            )?;
            Ok(Judged::Refused(refusal))
        }
        Err(PathFault::OutOfMemory) => Err(OutOfMemory),
    }
}

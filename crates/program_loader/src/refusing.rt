//! Refusals of files, modules and symbols.
ghost use Rattle.std.specs.Prelude.{◌≡◌, IfOk};
ghost use Rattle.ir_syntax.specs.FormedBody.{item_name};
ghost use Rattle.ir_writer.specs.Names.{name_text};
ghost use Rattle.program_loader.specs.Refusing.{refusal};
ghost use Rattle.program_loader.specs.Steps.{stop_refusal};

use crate::reading::Stop;
use crate::{Detail, Refusal};
use ir_syntax::Item;
use ir_types::{Bytes, OutOfMemory};
use ir_writer::write_name;
use occam_base::Code;
use std::alloc::Global;

/// The refusal of a file that isn't read.
pub fn of_stop(alloc: Global, stop: Stop, file: &[u8]) -> Result<Refusal, OutOfMemory>
    ensures { IfOk result (λ r. r ≡ stop_refusal stop file.now) }
{
    match stop {
        Stop::Failed => of_file(alloc, Code::ReadFault, file),
        Stop::Absent => of_file(alloc, Code::Absent, file),
        Stop::TooLarge => of_file(alloc, Code::TooLarge, file),
        Stop::OutOfMemory => Err(OutOfMemory),
    }
}

fn of_file(alloc: Global, code: Code, file: &[u8]) -> Result<Refusal, OutOfMemory>
    ensures { IfOk result (λ r. r ≡ refusal code (Detail.File file.now)) }
{
    let file = Bytes::from_slice(alloc, file)?;
    Ok(Refusal {
        code,
        detail: Detail::File(file),
    })
}

/// The refusal of a module's text at an offset, or at an entity.
pub fn of_place(
    alloc: Global,
    code: Code,
    file: &[u8],
    place: usize,
) -> Result<Refusal, OutOfMemory>
    ensures { IfOk result (λ r. r ≡ refusal code (Detail.At file.now place)) }
{
    let file = Bytes::from_slice(alloc, file)?;
    Ok(Refusal {
        code,
        detail: Detail::At(file, place as u64),
    })
}

/// The refusal of an item of a module.
pub fn of_item(alloc: Global, code: Code, file: &[u8], item: &Item) -> Result<Refusal, OutOfMemory>
    ensures { IfOk result (λ r. r ≡ refusal code (Detail.Of file.now (name_text (item_name item.now)))) }
{
    let file = Bytes::from_slice(alloc, file)?;
    let symbol = write_name(alloc, name_of(item))?;
    Ok(Refusal {
        code,
        detail: Detail::Of(file, symbol),
    })
}

/// The refusal of a symbol.
pub fn of_symbol(alloc: Global, code: Code, symbol: &[u8]) -> Result<Refusal, OutOfMemory>
    ensures { IfOk result (λ r. r ≡ refusal code (Detail.Symbol (name_text symbol.now))) }
{
    let symbol = write_name(alloc, symbol)?;
    Ok(Refusal {
        code,
        detail: Detail::Symbol(symbol),
    })
}

// The name of an item.
fn name_of(item: &Item) -> &[u8]
    ensures { result.now ≡ item_name item.now }
{
    match item {
        Item::Var(var) => var.name.as_slice(),
        Item::Func(func) => func.name.as_slice(),
    }
}

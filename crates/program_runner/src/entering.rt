//! The call of a program's entry.
ghost use Rattle.std.specs.Prelude.{◌≡◌, Some, IsSome, IfOk, IfErr};
ghost use Rattle.ir_syntax.specs.Programs.{IsProgram};
ghost use Rattle.ir_steps.specs.Calls.{function_at};
ghost use Rattle.program_loader.specs.Loading.{link_refusal};
ghost use Rattle.linker.specs.declared.fault.LinkFault.{LinkFault};
ghost use Rattle.program_runner.specs.Mirrors.Entering.{IsEntryRoot, RefusesEntry};

use crate::arguments::entry_numbers;
use ir_syntax::{Func, Item, Program};
use ir_types::OutOfMemory;
use ir_writer::write_name;
use manifest::Manifest;
use occam_base::Code;
use program_loader::{Detail, Loaded, Refusal};
use session_runs::Root;
use std::alloc::Global;

/// The function that is the entry of a program.
#[tactic(auto, using(crate::proofs::Entries::function_is_item))]
pub fn entry_of(p: &Program) -> &Func
    requires { IsSome (function_at p.now p.now.entry) }
    ensures { function_at p.now p.now.entry ≡ Some result.now }
{
    let symbol = p.entry();
    match &p.modules()[symbol.module].items.as_slice()[symbol.item] {
        Item::Var(_) => unreachable!(),
        Item::Func(func) => func,
    }
}

/// The call of the entry with the manifest's arguments, and with a word, in order, for each that the manifest leaves
/// unknown. `EntryShape` refuses too few words, too many, or one that is out of its parameter's range.
pub fn entry_root(
    alloc: Global,
    loaded: &Loaded,
    func: &Func,
    words: &[i128],
) -> Result<Root, Refusal>
    requires program { IsProgram loaded.now.program }
    requires entry { function_at loaded.now.program loaded.now.program.entry ≡ Some func.now }
    ensures root { IfOk result (λ root. IsEntryRoot loaded.now.program loaded.now.manifest.args words.now func.now root) }
    ensures refused { IfErr result (λ r. RefusesEntry loaded.now.program loaded.now.manifest words.now r) }
{
    let args = loaded.manifest.args.as_slice();
    match entry_numbers(alloc, func, args, words)? {
        Some(args) => Ok(Root {
            func: loaded.program.entry(),
            args,
        }),
        None => Err(misfit(alloc, &loaded.manifest)?),
    }
}

// The refusal of words that the entry doesn't take.
fn misfit(alloc: Global, manifest: &Manifest) -> Result<Refusal, OutOfMemory>
    ensures { IfOk result (λ r. r ≡ link_refusal (LinkFault.EntryShape manifest.now.entry)) }
{
    let symbol = write_name(alloc, manifest.entry.as_slice())?;
    Ok(Refusal {
        code: Code::EntryShape,
        detail: Detail::Symbol(symbol),
    })
}

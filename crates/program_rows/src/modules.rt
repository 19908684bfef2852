//! Modules that the reader and both checks accept.
ghost use Rattle.std.specs.Prelude.{◌<◌, ◌^◌, IfOk, IfSome, length};
ghost use Rattle.ir_syntax.specs.Programs.{IsSoundModule, AreSoundModules};

use ir_check::check_types;
use ir_parser::{read_module, what_is_spelled_is_formed};
use ir_paths::check_paths;
use ir_syntax::Module;
use ir_types::List;
use std::alloc::Global;

/// What stands before the text of a module.
const BETWEEN: &str = "; --\n";

/// The module of a text, if it spells one that both checks accept.
fn sound_module(alloc: Global, text: &[u8]) -> Option<Module>
    ensures { IfSome result (λ m. IsSoundModule m × (length m.items < 2 ^ 32)) }
{
    what_is_spelled_is_formed();
    let module = read_module(alloc, text).ok()?;
    check_types(alloc, &module).ok()?;
    check_paths(alloc, &module).ok()?;
    if module.items.len() < 1 << 32 {
        Some(module)
    } else {
        None
    }
}

/// The modules of a row, if all are sound.
pub(crate) fn modules_of(alloc: Global, row: &str) -> anyhow::Result<Option<List<Module>>>
    ensures { IfOk result (λ modules. IfSome modules AreSoundModules) }
{
    let mut modules = List::new(alloc);
    for text in row.split(BETWEEN).skip(1) {
        match sound_module(alloc, text.as_bytes()) {
            Some(module) => modules.push(module)?,
            None => return Ok(None),
        }
    }
    if modules.len() < 1 << 31 {
        Ok(Some(modules))
    } else {
        Ok(None)
    }
}

//! Functions on call cycles as text.
use crate::shown::{name_of, name_text};
use call_cycles::on_cycles;
use ir_syntax::{Module, Program};
use std::alloc::Global;

/// The names of the items of a module whose flags are set.
fn add_flagged(
    alloc: Global,
    text: &mut String,
    module: &Module,
    flags: &[bool],
) -> anyhow::Result<()> {
    for (item, flag) in module.items.as_slice().iter().zip(flags) {
        if *flag {
            let name = name_text(alloc, name_of(item))?;
            text.push_str(format!(in alloc; " {name}")?.as_str())?;
        }
    }
    Ok(())
}

/// The functions of each module that are on call cycles.
pub(crate) fn cycles_text(alloc: Global, program: &Program) -> anyhow::Result<String> {
    let flags = on_cycles(alloc, program)?;
    let mut text = String::from_str(alloc, "ok")?;
    for (module, row) in program.modules().iter().zip(flags.as_slice()) {
        text.push_str(" |")?;
        add_flagged(alloc, &mut text, module, row.as_slice())?;
    }
    Ok(text)
}

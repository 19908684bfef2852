//! What a deployment asks for at first, as text.
use crate::shown::rows_text;
use call_cycles::on_cycles;
use ir_syntax::Program;
use specialise::roots;
use std::alloc::Global;

/// The demands of the roots, in order.
pub(crate) fn roots_text(alloc: Global, program: &Program) -> anyhow::Result<String> {
    let cycles = on_cycles(alloc, program)?;
    let rows = roots(alloc, program, &cycles)?;
    let asked = rows_text(alloc, program, rows.as_slice())?;
    Ok(format!(in alloc; "roots{asked}")?)
}

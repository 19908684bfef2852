//! What came of roots, as text.
use crate::values::{name_text, value_text};
use block_memory::Val;
use int_ops::Cause;
use ir_meaning::Stepped;
use ir_syntax::SymName;
use std::alloc::Global;

fn cause_words(cause: Cause) -> &'static str {
    match cause {
        Cause::DivideByZero => "division by zero",
        Cause::DivideOverflow => "division overflows",
        Cause::BranchOnPoison => "branch on poison",
        Cause::PoisonAddress => "poison address",
        Cause::NullAddress => "null address",
        Cause::NotBytes => "not bytes",
        Cause::EndedBlock => "ended block",
        Cause::OutsideBlock => "outside block",
        Cause::Misaligned => "misaligned",
        Cause::ReadOnly => "read only",
        Cause::PoisonLength => "poison length",
        Cause::Overlap => "overlap",
        Cause::BadCall => "bad call",
        Cause::CallType => "call type",
        Cause::PoisonToOutside => "poison to outside",
        Cause::Incomparable => "incomparable",
        Cause::BadFree => "bad free",
        Cause::BadReply => "bad reply",
        Cause::Unreachable => "unreachable",
    }
}

fn returned_text(alloc: Global, value: &Option<Val<SymName>>) -> anyhow::Result<String> {
    match value {
        Some(value) => value_text(alloc, value),
        None => Ok(String::from_str(alloc, "nothing")?),
    }
}

fn end_text(alloc: Global, end: &Stepped, steps: u64) -> anyhow::Result<String> {
    let all = steps.saturating_add(1);
    match end {
        Stepped::Went => Ok(format!(in alloc; "went on in {all}")?),
        Stepped::Wants(wanted) => {
            let name = name_text(alloc, wanted.name.as_slice())?;
            Ok(format!(in alloc; "waits for {name} after {steps}")?)
        }
        Stepped::Returned(value) => {
            let value = returned_text(alloc, value)?;
            Ok(format!(in alloc; "{value} in {all}")?)
        }
        Stepped::Exited(status) => Ok(format!(in alloc; "exit {status} in {all}")?),
        Stepped::Aborted => Ok(format!(in alloc; "abort in {all}")?),
        Stepped::Undefined(cause) => {
            let cause = cause_words(*cause);
            Ok(format!(in alloc; "{cause} after {steps}")?)
        }
    }
}

/// Adds what came of a root behind so many steps that went on. The error is want of memory.
pub(crate) fn add_end(
    alloc: Global,
    text: &mut String,
    end: &Stepped,
    steps: u64,
) -> anyhow::Result<()> {
    text.push_str(end_text(alloc, end, steps)?.as_str())?;
    Ok(())
}

/// Adds that a root was left after so many steps. The error is want of memory.
pub(crate) fn add_left(alloc: Global, text: &mut String, steps: u64) -> anyhow::Result<()> {
    text.push_str(format!(in alloc; "left after {steps}")?.as_str())?;
    Ok(())
}

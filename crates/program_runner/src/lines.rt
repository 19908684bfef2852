//! The line that says how a run of an entry ended.
ghost use Rattle.std.specs.Prelude.{◌≡◌, ◌++◌, IfOk, OnOk};
ghost use Rattle.std.specs.Fmt.{decimal, signed_decimal};
ghost use Rattle.program_runner.specs.Lines as lines;

use crate::Ended;
use block_memory::Val;
use int_ops::Cause;
use ir_syntax::SymName;
use ir_types::{Bytes, OutOfMemory, Scalar};
use ir_writer::write_name;
use itoa::Buffer;
use session_runs::Phase;
use std::alloc::Global;

/// The line that says how a run ended, with its line feed: `returned VALUE`, `exited STATUS`, `aborted`, `undefined CAUSE`,
/// `running` or `waiting NAME`, and then ` steps=K`. The error is want of memory.
pub fn ended_line(alloc: Global, ended: &Ended) -> Result<Bytes, OutOfMemory>
    ensures { IfOk result (λ line. line ≡ lines.ended_line ended.now) }
{
    let mut line = Bytes::new(alloc);
    write_phase(alloc, &mut line, ended, &ended.phase)?;
    line.append(b" steps=")?;
    write_decimal(&mut line, ended.steps)?;
    line.push(b'\n')?;
    Ok(line)
}

fn write_phase(
    alloc: Global,
    line: &mut Bytes,
    ended: &Ended,
    phase: &Phase,
) -> Result<(), OutOfMemory>
    ensures { OnOk result (line.new ≡ line.old ++ lines.phase_text ended.now phase.now) }
{
    match phase {
        Phase::Running => line.append(b"running"),
        Phase::Waiting(name) => {
            line.append(b"waiting ")?;
            line.append(write_name(alloc, name.as_slice())?.as_slice())
        }
        Phase::Finished => {
            line.append(b"returned ")?;
            write_value(line, ended.ty, &ended.value)
        }
        Phase::Exited(status) => {
            line.append(b"exited ")?;
            write_signed_decimal(line, Scalar::I32.signed(*status as u64))
        }
        Phase::Aborted => line.append(b"aborted"),
        Phase::Undefined(cause) => {
            line.append(b"undefined ")?;
            line.append(cause_word(*cause).as_bytes())
        }
    }
}

fn write_value(
    line: &mut Bytes,
    ty: Option<Scalar>,
    value: &Option<Val<SymName>>,
) -> Result<(), OutOfMemory>
    ensures { OnOk result (line.new ≡ line.old ++ lines.value_text ty value.now) }
{
    match ty {
        None => line.append(b"void"),
        Some(ty) => match value {
            None => line.append(b"void"),
            Some(value) => write_typed(line, ty, value),
        },
    }
}

fn write_typed(line: &mut Bytes, ty: Scalar, value: &Val<SymName>) -> Result<(), OutOfMemory>
    ensures { OnOk result (line.new ≡ line.old ++ lines.typed_text ty value.now) }
{
    match value {
        Val::Num(number) => write_number(line, ty, *number),
        Val::Null => line.append(b"null"),
        Val::At(_, _) => line.append(b"pointer"),
        Val::Poison => line.append(b"poison"),
    }
}

fn write_number(line: &mut Bytes, ty: Scalar, number: u64) -> Result<(), OutOfMemory>
    ensures { OnOk result (line.new ≡ line.old ++ lines.number_text ty number) }
{
    match ty {
        Scalar::I1 => {
            if number == 0 {
                line.append(b"false")
            } else {
                line.append(b"true")
            }
        }
        Scalar::I8 => write_signed_decimal(line, ty.signed(number)),
        Scalar::I16 => write_signed_decimal(line, ty.signed(number)),
        Scalar::I32 => write_signed_decimal(line, ty.signed(number)),
        Scalar::I64 => write_signed_decimal(line, ty.signed(number)),
        Scalar::Ptr => write_decimal(line, number),
    }
}

fn write_decimal(line: &mut Bytes, number: u64) -> Result<(), OutOfMemory>
    ensures { OnOk result (line.new ≡ line.old ++ decimal number) }
{
    let mut buffer = Buffer::new();
    line.append(buffer.format(number).as_bytes())
}

fn write_signed_decimal(line: &mut Bytes, number: i64) -> Result<(), OutOfMemory>
    ensures { OnOk result (line.new ≡ line.old ++ signed_decimal number) }
{
    let mut buffer = Buffer::new();
    line.append(buffer.format(number).as_bytes())
}

fn cause_word(cause: Cause) -> &'static str
    ensures { result.now ≡ lines.cause_word cause }
{
    match cause {
        Cause::DivideByZero => "divide-by-zero",
        Cause::DivideOverflow => "divide-overflow",
        Cause::BranchOnPoison => "branch-on-poison",
        Cause::PoisonAddress => "poison-address",
        Cause::NullAddress => "null-address",
        Cause::NotBytes => "not-bytes",
        Cause::EndedBlock => "ended-block",
        Cause::OutsideBlock => "outside-block",
        Cause::Misaligned => "misaligned",
        Cause::ReadOnly => "read-only",
        Cause::PoisonLength => "poison-length",
        Cause::Overlap => "overlap",
        Cause::BadCall => "bad-call",
        Cause::CallType => "call-type",
        Cause::PoisonToOutside => "poison-to-outside",
        Cause::Incomparable => "incomparable",
        Cause::BadFree => "bad-free",
        Cause::BadReply => "bad-reply",
        Cause::Unreachable => "unreachable",
    }
}

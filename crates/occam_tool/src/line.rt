//! The lines that the program prints.
ghost use Rattle.std.specs.Prelude.{◌≡◌, ◌++◌, ◌∷◌, IfOk, OnOk};
ghost use Rattle.std.specs.Fmt.{decimal};
ghost use Rattle.occam_tool.specs.Lines.{report_line as line_of_report, checked_line as line_of_checked, refusal_line as line_of_refusal, refusal_word as word_of, detail_text as text_of_detail};

use crate::{Checked, Detail, Refusal, Report};
use ir_types::{Bytes, OutOfMemory};
use manifest::key_name;
use occam_base::Code;
use std::alloc::Global;

/// The line of a report, with its line feed.
pub fn report_line(alloc: Global, report: &Report) -> Result<Bytes, OutOfMemory>
    ensures { IfOk result (λ line. line ≡ line_of_report report.now) }
{
    let mut line = Bytes::new(alloc);
    append_count(alloc, &mut line, b"done modules=", report.modules)?;
    append_count(alloc, &mut line, b" originals=", report.originals)?;
    append_count(alloc, &mut line, b" clones=", report.clones)?;
    append_count(alloc, &mut line, b" globals=", report.globals)?;
    append_count(alloc, &mut line, b" instructions=", report.instructions)?;
    append_count(alloc, &mut line, b" before=", report.before)?;
    line.push(b'\n')?;
    Ok(line)
}

/// The line of the counts of a checked program, with its line feed.
pub fn checked_line(alloc: Global, counts: &Checked) -> Result<Bytes, OutOfMemory>
    ensures { IfOk result (λ line. line ≡ line_of_checked counts.now) }
{
    let mut line = Bytes::new(alloc);
    append_count(alloc, &mut line, b"ok modules=", counts.modules)?;
    append_count(alloc, &mut line, b" functions=", counts.functions)?;
    append_count(alloc, &mut line, b" globals=", counts.globals)?;
    append_count(alloc, &mut line, b" instructions=", counts.instructions)?;
    line.push(b'\n')?;
    Ok(line)
}

fn append_count(alloc: Global, line: &mut Bytes, word: &[u8], count: u64) -> Result<(), OutOfMemory>
    ensures { OnOk result (line.new ≡ line.old ++ (word.now ++ decimal count)) }
{
    line.append(word)?;
    append_decimal(alloc, line, count)
}

fn append_decimal(alloc: Global, line: &mut Bytes, number: u64) -> Result<(), OutOfMemory>
    ensures { OnOk result (line.new ≡ line.old ++ decimal number) }
{
    let digits = number.to_string(alloc)?;
    line.append(digits.as_str().as_bytes())
}

/// The line of a refusal, with its line feed.
pub fn refusal_line(alloc: Global, refusal: &Refusal) -> Result<Bytes, OutOfMemory>
    ensures { IfOk result (λ line. line ≡ line_of_refusal refusal.now) }
{
    let mut line = Bytes::from_slice(alloc, b"refused ")?;
    line.append(refusal_word(refusal.code).as_bytes())?;
    append_detail(alloc, &mut line, &refusal.detail)?;
    line.push(b'\n')?;
    Ok(line)
}

fn append_detail(alloc: Global, line: &mut Bytes, detail: &Detail) -> Result<(), OutOfMemory>
    ensures { OnOk result (line.new ≡ line.old ++ text_of_detail detail.now) }
{
    match detail {
        Detail::Nothing => Ok(()),
        Detail::File(name) => append_words(line, name.as_slice()),
        Detail::At(name, place) => {
            append_words(line, name.as_slice())?;
            line.push(b' ')?;
            append_decimal(alloc, line, *place)
        }
        Detail::Of(name, symbol) => {
            append_words(line, name.as_slice())?;
            append_words(line, symbol.as_slice())
        }
        Detail::Symbol(symbol) => append_words(line, symbol.as_slice()),
        Detail::Key(key) => append_words(line, key_name(*key).as_bytes()),
    }
}

fn append_words(line: &mut Bytes, words: &[u8]) -> Result<(), OutOfMemory>
    ensures { OnOk result (line.new ≡ line.old ++ 32 ∷ words.now) }
{
    line.push(b' ')?;
    line.append(words)
}

fn refusal_word(code: Code) -> &'static str
    ensures { result.now ≡ word_of code }
{
    match code {
        Code::Done => "done",
        Code::Usage => "usage",
        Code::OutOfMemory => "memory",
        Code::ReadFault => "read",
        Code::WriteFault => "write",
        Code::PrintFault => "print",
        Code::SourceFault => "source",
        Code::Absent => "absent",
        Code::TooLarge => "too-large",
        Code::NotJson => "not-json",
        Code::BadManifest => "manifest",
        Code::BadByte => "bad-byte",
        Code::NotInSubset => "not-in-subset",
        Code::IllTyped => "ill-typed",
        Code::NotDefinite => "not-definite",
        Code::TwoDefinitions => "two-definitions",
        Code::NoDefinition => "no-definition",
        Code::TypeClash => "type-clash",
        Code::NoEntry => "no-entry",
        Code::EntryShape => "entry-shape",
        Code::NoExport => "no-export",
        Code::ExportShape => "export-shape",
        Code::TooManyDemands => "too-many-demands",
        Code::TooMuchCode => "too-much-code",
        Code::NameClash => "name-clash",
    }
}

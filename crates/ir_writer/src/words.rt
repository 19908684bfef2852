//! Numbers, words and marks.
ghost use Rattle.std.specs.Prelude.{◌≡◌, ◌==◌, ◌∷◌, [], ◌++◌, codes, OnOk, if◌then◌else◌};
ghost use Rattle.std.specs.Fmt.{decimal, signed_decimal};
ghost use Rattle.ir_lexer.specs.Written.{bytes_of};
ghost use Rattle.ir_writer.specs.Words.{scalar_text, op_text, cast_text, pred_text, said, returned, linkage_parts, ext_before, ext_behind};

use ir_syntax::Linkage;
use ir_types::{BinOp, Bytes, CastOp, Ext, OutOfMemory, Pred, Scalar};
use itoa::Buffer;

/// Adds a number in decimal.
pub fn write_decimal(out: &mut Bytes, number: u64) -> Result<(), OutOfMemory>
    ensures { OnOk result (out.new ≡ out.old ++ decimal number) }
{
    let mut buffer = Buffer::new();
    out.append(buffer.format(number).as_bytes())
}

/// Adds a number in decimal, behind a minus sign where it is negative.
pub fn write_signed_decimal(out: &mut Bytes, number: i64) -> Result<(), OutOfMemory>
    ensures { OnOk result (out.new ≡ out.old ++ signed_decimal number) }
{
    let mut buffer = Buffer::new();
    out.append(buffer.format(number).as_bytes())
}

/// The word of a type of one value.
pub fn scalar_word(ty: Scalar) -> &'static [u8]
    ensures { result.now ≡ scalar_text ty }
{
    match ty {
        Scalar::I1 => b"i1",
        Scalar::I8 => b"i8",
        Scalar::I16 => b"i16",
        Scalar::I32 => b"i32",
        Scalar::I64 => b"i64",
        Scalar::Ptr => b"ptr",
    }
}

/// The word of an integer operation.
pub fn op_word(op: BinOp) -> &'static [u8]
    ensures { result.now ≡ op_text op }
{
    match op {
        BinOp::Add => b"add",
        BinOp::Sub => b"sub",
        BinOp::Mul => b"mul",
        BinOp::Udiv => b"udiv",
        BinOp::Sdiv => b"sdiv",
        BinOp::Urem => b"urem",
        BinOp::Srem => b"srem",
        BinOp::Shl => b"shl",
        BinOp::Lshr => b"lshr",
        BinOp::Ashr => b"ashr",
        BinOp::And => b"and",
        BinOp::Or => b"or",
        BinOp::Xor => b"xor",
    }
}

/// The word of a cast.
pub fn cast_word(op: CastOp) -> &'static [u8]
    ensures { result.now ≡ cast_text op }
{
    match op {
        CastOp::Zext => b"zext",
        CastOp::Sext => b"sext",
        CastOp::Trunc => b"trunc",
    }
}

/// The word of a predicate.
pub fn pred_word(pred: Pred) -> &'static [u8]
    ensures { result.now ≡ pred_text pred }
{
    match pred {
        Pred::Eq => b"eq",
        Pred::Ne => b"ne",
        Pred::Ugt => b"ugt",
        Pred::Uge => b"uge",
        Pred::Ult => b"ult",
        Pred::Ule => b"ule",
        Pred::Sgt => b"sgt",
        Pred::Sge => b"sge",
        Pred::Slt => b"slt",
        Pred::Sle => b"sle",
    }
}

/// Adds what stands before the part of a list at a place: a comma and a blank, unless it is the first.
pub fn write_separator(out: &mut Bytes, place: usize) -> Result<(), OutOfMemory>
    ensures { OnOk result (out.new ≡ out.old ++ (if place == 0 then [] else codes ", ")) }
{
    if place == 0 {
        return Ok(());
    }
    out.append(b", ")
}

/// Adds a word and a blank, where it is said.
pub fn write_said(out: &mut Bytes, on: bool, word: &[u8]) -> Result<(), OutOfMemory>
    ensures { OnOk result (out.new ≡ out.old ++ bytes_of (said on word.now)) }
{
    if !on {
        return Ok(());
    }
    out.append(word)?;
    out.append(b" ")
}

/// Adds the word of a linkage and a blank, unless every module sees the symbol.
pub fn write_linkage(out: &mut Bytes, linkage: Linkage) -> Result<(), OutOfMemory>
    ensures { OnOk result (out.new ≡ out.old ++ bytes_of (linkage_parts linkage)) }
{
    match linkage {
        Linkage::External => Ok(()),
        Linkage::Internal => out.append(b"internal "),
        Linkage::Private => out.append(b"private "),
    }
}

/// Adds how a result is widened, and a blank.
pub fn write_ext_before(out: &mut Bytes, ext: Ext) -> Result<(), OutOfMemory>
    ensures { OnOk result (out.new ≡ out.old ++ bytes_of (ext_before ext)) }
{
    match ext {
        Ext::Plain => Ok(()),
        Ext::Signed => out.append(b"signext "),
        Ext::Unsigned => out.append(b"zeroext "),
    }
}

/// Adds a blank, and how a parameter or an argument is widened.
pub fn write_ext_behind(out: &mut Bytes, ext: Ext) -> Result<(), OutOfMemory>
    ensures { OnOk result (out.new ≡ out.old ++ bytes_of (ext_behind ext)) }
{
    match ext {
        Ext::Plain => Ok(()),
        Ext::Signed => out.append(b" signext"),
        Ext::Unsigned => out.append(b" zeroext"),
    }
}

/// Adds what a function returns.
pub fn write_returned(out: &mut Bytes, returns: Option<Scalar>) -> Result<(), OutOfMemory>
    ensures { OnOk result (out.new ≡ out.old ++ bytes_of (returned returns ∷ [])) }
{
    match returns {
        Some(ty) => out.append(scalar_word(ty)),
        None => out.append(b"void"),
    }
}

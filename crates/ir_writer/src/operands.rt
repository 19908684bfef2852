//! Operands, and alignments.
ghost use Rattle.std.specs.Prelude.{◌≡◌, ◌++◌, OnOk, map};
ghost use Rattle.std.specs.Fmt.{decimal};
ghost use Rattle.ir_lexer.specs.Written.{bytes_of};
ghost use Rattle.ir_syntax.specs.FormedBody.{IsAlign, item_name};
ghost use Rattle.ir_writer.specs.Instructions.{operand_parts, typed, pair, jump, align_parts};

use crate::constants::write_constant;
use crate::words::{scalar_word, write_decimal};
use ir_syntax::{Item, Operand};
use ir_types::{Bytes, OutOfMemory, Scalar, Ty};

/// Adds a local name: what it begins with, and a number.
pub fn write_local(out: &mut Bytes, begins: &[u8], number: usize) -> Result<(), OutOfMemory>
    ensures { OnOk result (out.new ≡ out.old ++ (begins.now ++ decimal number)) }
{
    out.append(begins)?;
    write_decimal(out, number as u64)
}

/// Adds an operand of a type: parameters are named `%a0`, `%a1` and results `%v0`, `%v1`, in order.
pub fn write_operand(
    out: &mut Bytes,
    items: &[Item],
    ty: Scalar,
    value: &Operand,
) -> Result<(), OutOfMemory>
    ensures { OnOk result (out.new ≡ out.old ++ bytes_of (operand_parts (map item_name items.now) ty value.now)) }
{
    match value {
        Operand::Param(place) => write_local(out, b"%a", *place),
        Operand::Reg(number) => write_local(out, b"%v", *number),
        Operand::Const(constant) => write_constant(out, items, &Ty::One(ty), constant),
    }
}

/// Adds a type, and an operand of it.
pub fn write_typed(
    out: &mut Bytes,
    items: &[Item],
    ty: Scalar,
    value: &Operand,
) -> Result<(), OutOfMemory>
    ensures { OnOk result (out.new ≡ out.old ++ bytes_of (typed (map item_name items.now) ty value.now)) }
{
    out.append(scalar_word(ty))?;
    out.append(b" ")?;
    write_operand(out, items, ty, value)
}

/// Adds a type, and two operands of it.
#[tactic(auto, using(crate::proofs::Bytes::written))]
pub fn write_pair(
    out: &mut Bytes,
    items: &[Item],
    ty: Scalar,
    a: &Operand,
    b: &Operand,
) -> Result<(), OutOfMemory>
    ensures { OnOk result (out.new ≡ out.old ++ bytes_of (pair (map item_name items.now) ty a.now b.now)) }
{
    write_typed(out, items, ty, a)?;
    out.append(b", ")?;
    write_operand(out, items, ty, b)
}

/// Adds a block to go to.
pub fn write_jump(out: &mut Bytes, place: usize) -> Result<(), OutOfMemory>
    ensures { OnOk result (out.new ≡ out.old ++ bytes_of (jump place)) }
{
    out.append(b"label ")?;
    write_local(out, b"%b", place)
}

/// Adds an alignment behind a comma, where there is one. It is the exponent of two.
pub fn write_align(out: &mut Bytes, align: Option<u8>) -> Result<(), OutOfMemory>
    requires { IsAlign align }
    ensures { OnOk result (out.new ≡ out.old ++ bytes_of (align_parts align)) }
{
    match align {
        Some(exponent) => {
            out.append(b", align ")?;
            write_decimal(out, 1 << exponent)
        }
        None => Ok(()),
    }
}

//! Constants at their types.
ghost use Rattle.std.specs.Prelude.{◌≡◌, ◌∷◌, [], ◌++◌, OnOk, map};
ghost use Rattle.ir_types.specs.declared.shape.Ty.{out-Ty};
ghost use Rattle.ir_lexer.specs.Written.{bytes_of};
ghost use Rattle.ir_syntax.specs.FormedBody.{item_name};
ghost use Rattle.ir_writer.specs.Names.{name_at};
ghost use Rattle.ir_writer.specs.Words.{listed};
ghost use Rattle.ir_writer.specs.Constants.{braced, signed_text, integer, symbol, address, number_at, typed_part, typed_fields, many_at, constant_parts};

use crate::names::{write_name, write_quoted};
use crate::types::write_type;
use crate::words::{write_decimal, write_separator, write_signed_decimal};
use ir_syntax::{Const, Item};
use ir_types::{Bytes, OutOfMemory, Scalar, Ty};

/// Adds a number as a signed one, where `half` is the least that stands for a negative one.
fn write_signed(out: &mut Bytes, half: u64, n: u64) -> Result<(), OutOfMemory>
    ensures { OnOk result (out.new ≡ out.old ++ signed_text half n) }
{
    if n < half {
        return write_decimal(out, n);
    }
    out.append(b"-")?;
    write_decimal(out, half.saturating_sub(n - half))
}

/// Adds an integer at its type: `true` or `false` of `i1`, and a signed number of the others.
pub fn write_integer(out: &mut Bytes, ty: Scalar, n: u64) -> Result<(), OutOfMemory>
    ensures { OnOk result (out.new ≡ out.old ++ bytes_of (integer ty n ∷ [])) }
{
    match ty {
        Scalar::I1 => {
            if n == 0 {
                out.append(b"false")
            } else {
                out.append(b"true")
            }
        }
        Scalar::I8 => write_signed(out, 1 << 7, n),
        Scalar::I16 => write_signed(out, 1 << 15, n),
        Scalar::I32 => write_signed(out, 1 << 31, n),
        Scalar::I64 => write_signed(out, 1 << 63, n),
        Scalar::Ptr => write_decimal(out, n),
    }
}

/// Adds a number at a type.
fn write_number(out: &mut Bytes, ty: &Ty, n: u64) -> Result<(), OutOfMemory>
    ensures { OnOk result (out.new ≡ out.old ++ bytes_of (number_at (out-Ty ty.now) n)) }
{
    match ty {
        Ty::One(scalar) => write_integer(out, *scalar, n),
        Ty::Array(_, _) => write_decimal(out, n),
        Ty::Struct(_) => write_decimal(out, n),
    }
}

fn name_of(item: &Item) -> &[u8]
    ensures { result.now ≡ item_name item.now }
{
    match item {
        Item::Var(var) => var.name.as_slice(),
        Item::Func(func) => func.name.as_slice(),
    }
}

/// The name of the item at a place, which is empty where there is none.
fn name_at(items: &[Item], place: usize) -> &[u8]
    ensures { result.now ≡ name_at (map item_name items.now) place }
{
    match items.get(place) {
        Some(item) => name_of(item),
        None => b"",
    }
}

/// Adds the name of the item at a place.
pub fn write_symbol(out: &mut Bytes, items: &[Item], place: usize) -> Result<(), OutOfMemory>
    ensures { OnOk result (out.new ≡ out.old ++ bytes_of (symbol (map item_name items.now) place ∷ [])) }
{
    out.append(b"@")?;
    write_name(out, name_at(items, place))
}

/// Adds the address of an item, so many bytes behind its start.
pub fn write_address(
    out: &mut Bytes,
    items: &[Item],
    place: usize,
    offset: i64,
) -> Result<(), OutOfMemory>
    ensures { OnOk result (out.new ≡ out.old ++ bytes_of (address (map item_name items.now) place offset)) }
{
    if offset == 0 {
        return write_symbol(out, items, place);
    }
    out.append(b"getelementptr (i8, ptr ")?;
    write_symbol(out, items, place)?;
    out.append(b", i64 ")?;
    write_signed_decimal(out, offset)?;
    out.append(b")")
}

/// Adds a type, and a constant at it.
#[cycle(constants)]
fn write_typed_part(
    out: &mut Bytes,
    items: &[Item],
    ty: &Ty,
    constant: &Const,
) -> Result<(), OutOfMemory>
    ensures { OnOk result (out.new ≡ out.old ++ bytes_of (typed_part (constant_parts (map item_name items.now) constant.now) ty.now)) }
{
    write_type(out, ty)?;
    out.append(b" ")?;
    write_constant(out, items, ty, constant)
}

/// Adds constants of one type with commas between them.
#[cycle(constants)]
fn write_elements(
    out: &mut Bytes,
    items: &[Item],
    element: &Ty,
    parts: &[Const],
) -> Result<(), OutOfMemory>
    ensures { OnOk result (out.new ≡ out.old ++ bytes_of (listed (map (λ constant. typed_part (constant_parts (map item_name items.now) constant) element.now) parts.now))) }
{
    for (place, part) in parts.iter().enumerate() {
        write_separator(out, place)?;
        write_typed_part(out, items, element, part)?;
    }
    Ok(())
}

/// Adds a constant for each of the types, with commas between them.
#[cycle(constants)]
fn write_typed_fields(
    out: &mut Bytes,
    items: &[Item],
    types: &[Ty],
    parts: &[Const],
) -> Result<(), OutOfMemory>
    ensures { OnOk result (out.new ≡ out.old ++ bytes_of (listed (typed_fields (map (constant_parts (map item_name items.now)) parts.now) types.now))) }
{
    for (place, part) in parts.iter().enumerate() {
        if place >= types.len() {
            return Ok(());
        }
        write_separator(out, place)?;
        write_typed_part(out, items, &types[place], part)?;
    }
    Ok(())
}

/// Adds the fields of a struct between braces.
#[cycle(constants)]
fn write_fields(
    out: &mut Bytes,
    items: &[Item],
    types: &[Ty],
    parts: &[Const],
) -> Result<(), OutOfMemory>
    ensures { OnOk result (out.new ≡ out.old ++ bytes_of (braced (typed_fields (map (constant_parts (map item_name items.now)) parts.now) types.now))) }
{
    if types.is_empty() || parts.is_empty() {
        return out.append(b"{}");
    }
    out.append(b"{ ")?;
    write_typed_fields(out, items, types, parts)?;
    out.append(b" }")
}

/// Adds the parts of an array or a struct.
#[cycle(constants)]
fn write_many(out: &mut Bytes, items: &[Item], ty: &Ty, parts: &[Const]) -> Result<(), OutOfMemory>
    ensures { OnOk result (out.new ≡ out.old ++ bytes_of (many_at (out-Ty ty.now) (map (constant_parts (map item_name items.now)) parts.now))) }
{
    match ty {
        Ty::One(_) => Ok(()),
        Ty::Array(_, element) => {
            out.append(b"[")?;
            write_elements(out, items, element.get(), parts)?;
            out.append(b"]")
        }
        Ty::Struct(fields) => write_fields(out, items, fields.as_slice(), parts),
    }
}

/// Adds a constant at a type. It recurses as deep as the constant nests.
#[cycle(constants)]
pub fn write_constant(
    out: &mut Bytes,
    items: &[Item],
    ty: &Ty,
    constant: &Const,
) -> Result<(), OutOfMemory>
    ensures { OnOk result (out.new ≡ out.old ++ bytes_of (constant_parts (map item_name items.now) constant.now ty.now)) }
{
    match constant {
        Const::Int(n) => write_number(out, ty, *n),
        Const::Null => out.append(b"null"),
        Const::Addr(place, offset) => write_address(out, items, *place, *offset),
        Const::Undef => out.append(b"undef"),
        Const::Poison => out.append(b"poison"),
        Const::Zero => out.append(b"zeroinitializer"),
        Const::Text(bytes) => {
            out.append(b"c")?;
            write_quoted(out, bytes.as_slice())
        }
        Const::Many(parts) => write_many(out, items, ty, parts.as_slice()),
    }
}

//! Types.
ghost use Rattle.std.specs.Prelude.{◌≡◌, ◌++◌, OnOk, map};
ghost use Rattle.ir_lexer.specs.Written.{bytes_of};
ghost use Rattle.ir_writer.specs.Words.{listed};
ghost use Rattle.ir_writer.specs.Constants.{braced, type_parts};

use crate::words::{scalar_word, write_decimal, write_separator};
use ir_types::{Bytes, OutOfMemory, Ty};

/// Adds types with commas between them.
#[cycle(types)]
fn write_types(out: &mut Bytes, types: &[Ty]) -> Result<(), OutOfMemory>
    ensures { OnOk result (out.new ≡ out.old ++ bytes_of (listed (map type_parts types.now))) }
{
    for (place, ty) in types.iter().enumerate() {
        write_separator(out, place)?;
        write_type(out, ty)?;
    }
    Ok(())
}

/// Adds the fields of a struct between braces.
#[cycle(types)]
fn write_fields(out: &mut Bytes, types: &[Ty]) -> Result<(), OutOfMemory>
    ensures { OnOk result (out.new ≡ out.old ++ bytes_of (braced (map type_parts types.now))) }
{
    if types.is_empty() {
        return out.append(b"{}");
    }
    out.append(b"{ ")?;
    write_types(out, types)?;
    out.append(b" }")
}

/// Adds a type. It recurses as deep as the type nests.
#[cycle(types)]
pub fn write_type(out: &mut Bytes, ty: &Ty) -> Result<(), OutOfMemory>
    ensures { OnOk result (out.new ≡ out.old ++ bytes_of (type_parts ty.now)) }
{
    match ty {
        Ty::One(scalar) => out.append(scalar_word(*scalar)),
        Ty::Array(count, element) => {
            out.append(b"[")?;
            write_decimal(out, *count)?;
            out.append(b" x ")?;
            write_type(out, element.get())?;
            out.append(b"]")
        }
        Ty::Struct(fields) => write_fields(out, fields.as_slice()),
    }
}

//! Calls.
#![tactic(auto, using(crate::proofs::Bytes::written))]

ghost use Rattle.std.specs.Prelude.{◌≡◌, ◌∷◌, [], ◌++◌, ◌==◌, OnOk, map, codes, if◌then◌else◌};
ghost use Rattle.ir_types.specs.Scalars.{same};
ghost use Rattle.ir_lexer.specs.Written.{bytes_of};
ghost use Rattle.ir_syntax.specs.FormedBody.{item_name};
ghost use Rattle.ir_writer.specs.Words.{listed, scalar};
ghost use Rattle.ir_writer.specs.Instructions.{same_types, is_whole, whole_parts, arg_parts, call_parts};

use crate::operands::write_operand;
use crate::words::{
    scalar_word, write_ext_before, write_ext_behind, write_returned, write_separator,
};
use ir_syntax::{Arg, Item, Operand};
use ir_types::{Bytes, Ext, FnType, OutOfMemory, Scalar};

fn same(one: Scalar, other: Scalar) -> bool
    ensures { result ≡ same one other }
{
    match (one, other) {
        (Scalar::I1, Scalar::I1) => true,
        (Scalar::I8, Scalar::I8) => true,
        (Scalar::I16, Scalar::I16) => true,
        (Scalar::I32, Scalar::I32) => true,
        (Scalar::I64, Scalar::I64) => true,
        (Scalar::Ptr, Scalar::Ptr) => true,
        _ => false,
    }
}

/// Whether the arguments have just these types.
fn same_types(types: &[Scalar], args: &[Arg]) -> bool
    ensures { result ≡ same_types types.now (map (λ arg. arg.ty) args.now) }
{
    for (place, ty) in types.iter().enumerate() {
        match args.get(place) {
            Some(arg) => {
                if !same(*ty, arg.ty) {
                    return false;
                }
            }
            None => return false,
        }
    }
    args.len() <= types.len()
}

/// Whether a call is written with the whole type of the function.
fn is_whole(fn_ty: &FnType, args: &[Arg]) -> bool
    ensures { result ≡ is_whole fn_ty.now args.now }
{
    fn_ty.variadic || !same_types(fn_ty.params.as_slice(), args)
}

/// Adds types with commas between them.
fn write_scalars(out: &mut Bytes, types: &[Scalar]) -> Result<(), OutOfMemory>
    ensures { OnOk result (out.new ≡ out.old ++ bytes_of (listed (map (λ ty. scalar ty ∷ []) types.now))) }
{
    for (place, ty) in types.iter().enumerate() {
        write_separator(out, place)?;
        out.append(scalar_word(*ty))?;
    }
    Ok(())
}

/// Adds `...` behind so many parameters, where more arguments may follow.
pub fn write_dots(out: &mut Bytes, count: usize, variadic: bool) -> Result<(), OutOfMemory>
    ensures { OnOk result (out.new ≡ out.old ++ (if variadic then (if count == 0 then [] else codes ", ") ++ codes "..." else [])) }
{
    if !variadic {
        return Ok(());
    }
    write_separator(out, count)?;
    out.append(b"...")
}

/// Adds the parameters of the type of a function, and a blank.
fn write_whole(out: &mut Bytes, fn_ty: &FnType) -> Result<(), OutOfMemory>
    ensures { OnOk result (out.new ≡ out.old ++ bytes_of (whole_parts fn_ty.now)) }
{
    out.append(b"(")?;
    write_scalars(out, fn_ty.params.as_slice())?;
    write_dots(out, fn_ty.params.len(), fn_ty.variadic)?;
    out.append(b") ")
}

/// Adds those parameters and the blank, where the call is written with the whole type.
fn write_needed(out: &mut Bytes, fn_ty: &FnType, args: &[Arg]) -> Result<(), OutOfMemory>
    ensures { OnOk result (out.new ≡ out.old ++ bytes_of (if is_whole fn_ty.now args.now then whole_parts fn_ty.now else [])) }
{
    if !is_whole(fn_ty, args) {
        return Ok(());
    }
    write_whole(out, fn_ty)
}

fn write_arg(out: &mut Bytes, items: &[Item], arg: &Arg) -> Result<(), OutOfMemory>
    ensures { OnOk result (out.new ≡ out.old ++ bytes_of (arg_parts (map item_name items.now) arg.now)) }
{
    out.append(scalar_word(arg.ty))?;
    write_ext_behind(out, arg.ext)?;
    out.append(b" ")?;
    write_operand(out, items, arg.ty, &arg.value)
}

/// Adds arguments with commas between them.
fn write_args(out: &mut Bytes, items: &[Item], args: &[Arg]) -> Result<(), OutOfMemory>
    ensures { OnOk result (out.new ≡ out.old ++ bytes_of (listed (map (arg_parts (map item_name items.now)) args.now))) }
{
    for (place, arg) in args.iter().enumerate() {
        write_separator(out, place)?;
        write_arg(out, items, arg)?;
    }
    Ok(())
}

/// Adds a call.
pub fn write_call(
    out: &mut Bytes,
    items: &[Item],
    fn_ty: &FnType,
    ret_ext: Ext,
    callee: &Operand,
    args: &[Arg],
) -> Result<(), OutOfMemory>
    ensures { OnOk result (out.new ≡ out.old ++ bytes_of (call_parts (map item_name items.now) fn_ty.now ret_ext callee.now args.now)) }
{
    out.append(b"call ")?;
    write_ext_before(out, ret_ext)?;
    write_returned(out, fn_ty.returns)?;
    out.append(b" ")?;
    write_needed(out, fn_ty, args)?;
    write_operand(out, items, Scalar::Ptr, callee)?;
    out.append(b"(")?;
    write_args(out, items, args)?;
    out.append(b")")
}

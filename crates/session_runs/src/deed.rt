//! What a call asks of the small world.
ghost use Rattle.std.specs.Prelude.{◌≡◌, Some, IfOk, false};
ghost use Rattle.ir_types.specs.Scalars as scalars;
ghost use Rattle.ir_steps.specs.Calls as calls;
ghost use Rattle.session_runs.specs.Tiny as tiny;

use block_memory::{Part, Val};
use ir_meaning::{Shown, Wanted};
use ir_syntax::{Builtin, SymName};
use ir_types::{Bytes, OutOfMemory, Scalar};
use std::alloc::Global;

/// What a call asks of the small world: memory; bytes to be written, with what is returned; a byte to be read; or what that
/// world doesn't know.
#[derive(Debug, Drop)]
pub enum Deed {
    Grants,
    Writes(Bytes, u64),
    Reads,
    Unknown,
}

/// What the call asks for.
pub(crate) fn deed_of(alloc: Global, call: &Wanted) -> Result<Deed, OutOfMemory>
    ensures { IfOk result (λ found. found ≡ tiny.deed call.now) }
{
    if is_named(call, Builtin::Malloc.name(), &[Scalar::I64], Scalar::Ptr) {
        Ok(Deed::Grants)
    } else if is_named(
        call,
        Builtin::Calloc.name(),
        &[Scalar::I64, Scalar::I64],
        Scalar::Ptr,
    ) {
        Ok(Deed::Grants)
    } else if is_named(call, b"putchar", &[Scalar::I32], Scalar::I32) {
        putchar(alloc, call.args.as_slice())
    } else if is_named(call, b"puts", &[Scalar::Ptr], Scalar::I32) {
        puts(alloc, call.args.as_slice())
    } else if is_named(call, b"getchar", &[], Scalar::I32) {
        Ok(Deed::Reads)
    } else {
        Ok(Deed::Unknown)
    }
}

// Whether the call is one of the function of this name and type.
fn is_named(call: &Wanted, name: &[u8], params: &[Scalar], returns: Scalar) -> bool
    ensures { result ≡ tiny.is_named name.now (record { params = params.now; variadic = false; returns = Some returns }) call.now }
{
    call.name.as_slice() == name
        && same_types(call.fn_ty.params.as_slice(), params)
        && !call.fn_ty.variadic
        && is_type(call.fn_ty.returns, returns)
}

fn same(one: Scalar, other: Scalar) -> bool
    ensures { result ≡ scalars.same one other }
{
    match (one, other) {
        (Scalar::I1, Scalar::I1) => true,
        (Scalar::I8, Scalar::I8) => true,
        (Scalar::I16, Scalar::I16) => true,
        (Scalar::I32, Scalar::I32) => true,
        (Scalar::I64, Scalar::I64) => true,
        (Scalar::Ptr, Scalar::Ptr) => true,
        _ => false,
    }
}

fn same_types(types: &[Scalar], others: &[Scalar]) -> bool
    ensures { result ≡ calls.same_types types.now others.now }
{
    for (place, ty) in types.iter().enumerate() {
        match others.get(place) {
            Some(other) => {
                if !same(*ty, *other) {
                    return false;
                }
            }
            None => return false,
        }
    }
    others.len() <= types.len()
}

fn is_type(returns: Option<Scalar>, ty: Scalar) -> bool
    ensures { result ≡ calls.same_return returns (Some ty) }
{
    match returns {
        Some(returns) => same(returns, ty),
        None => false,
    }
}

// `putchar` writes the low byte of its argument and returns it.
fn putchar(alloc: Global, args: &[Shown]) -> Result<Deed, OutOfMemory>
    ensures { IfOk result (λ found. found ≡ tiny.one_argument (λ arg. tiny.putchar_of arg.value) args.now) }
{
    match args {
        [arg] => character(alloc, &arg.value),
        _ => Ok(Deed::Unknown),
    }
}

fn character(alloc: Global, value: &Val<SymName>) -> Result<Deed, OutOfMemory>
    ensures { IfOk result (λ found. found ≡ tiny.putchar_of value.now) }
{
    match value {
        Val::Num(number) => {
            let byte = number % 256;
            let text = Bytes::from_slice(alloc, &[byte as u8])?;
            Ok(Deed::Writes(text, byte))
        }
        Val::Null => Ok(Deed::Unknown),
        Val::At(_, _) => Ok(Deed::Unknown),
        Val::Poison => Ok(Deed::Unknown),
    }
}

// `puts` writes a text and a line feed, and returns 0.
fn puts(alloc: Global, args: &[Shown]) -> Result<Deed, OutOfMemory>
    ensures { IfOk result (λ found. found ≡ tiny.one_argument (λ arg. tiny.puts_of (tiny.text_of arg.value arg.block)) args.now) }
{
    match args {
        [arg] => line(alloc, arg),
        _ => Ok(Deed::Unknown),
    }
}

fn line(alloc: Global, arg: &Shown) -> Result<Deed, OutOfMemory>
    ensures { IfOk result (λ found. found ≡ tiny.puts_of (tiny.text_of arg.now.value arg.now.block)) }
{
    match text_of(alloc, arg)? {
        Some(mut text) => {
            text.push(b'\n')?;
            Ok(Deed::Writes(text, 0))
        }
        None => Ok(Deed::Unknown),
    }
}

// The bytes that an address in a shown block leads to, up to a zero byte.
fn text_of(alloc: Global, arg: &Shown) -> Result<Option<Bytes>, OutOfMemory>
    ensures { IfOk result (λ found. found ≡ tiny.text_of arg.now.value arg.now.block) }
{
    match &arg.value {
        Val::Num(_) => Ok(None),
        Val::Null => Ok(None),
        Val::At(_, offset) => match &arg.block {
            Some(parts) => text_from(alloc, *offset, parts.as_slice()),
            None => Ok(None),
        },
        Val::Poison => Ok(None),
    }
}

fn text_from(
    alloc: Global,
    offset: i64,
    parts: &[Part<SymName>],
) -> Result<Option<Bytes>, OutOfMemory>
    ensures { IfOk result (λ found. found ≡ tiny.text_from offset (Some parts.now)) }
{
    if offset < 0 {
        return Ok(None);
    }
    let at = offset.cast_unsigned() as usize;
    if at > parts.len() {
        return Ok(None);
    }
    text_in(alloc, &parts[at..])
}

// The bytes up to the first zero byte, where there is one and each part up to it is a number.
fn text_in(alloc: Global, parts: &[Part<SymName>]) -> Result<Option<Bytes>, OutOfMemory>
    ensures { IfOk result (λ found. found ≡ tiny.text_in parts.now) }
{
    let mut text = Bytes::new(alloc);
    for part in parts {
        match part {
            Part::Num(byte) => {
                if *byte == 0 {
                    return Ok(Some(text));
                }
                text.push(*byte)?;
            }
            Part::Poison => return Ok(None),
            Part::Of(_, _, _) => return Ok(None),
        }
    }
    Ok(None)
}

//! Sizes, alignments and offsets.
use crate::failed::Failed;
use crate::fixtures::{array, nested, none_of_too_wide, pairs, small, wider_fields};
use ir_types::{
    List, OutOfMemory, Scalar, Ty, align_of, field_offset, field_offsets, layout_of, size_of,
};
use std::alloc::Global;

/// Prints a type's size and alignment, singly and together, and the offsets of its first fields.
fn print_layout<R: Print>(rt: &R, name: &str, ty: &Ty) -> Result<(), Failed> {
    let size = size_of(ty);
    let align = align_of(ty);
    let layout = layout_of(ty);
    println!(rt; "{name}: size {size:?}, align {align}, {layout:?}")?;
    for k in 0..3usize {
        let offset = field_offset(ty, k);
        println!(rt; "{name}: field {k}: {offset:?}")?;
    }
    Ok(())
}

/// Prints a type once it is made.
fn print_made<R: Print>(rt: &R, name: &str, made: Result<Ty, OutOfMemory>) -> Result<(), Failed> {
    let ty = made?;
    print_layout(rt, name, &ty)
}

/// Prints the offsets of all fields.
fn print_offsets<R: Print + AllocGlobal>(rt: &R, name: &str, fields: &[Ty]) -> Result<(), Failed> {
    match field_offsets(rt.alloc(), fields) {
        Ok(offsets) => println!(rt; "{name}: offsets {offsets:?}")?,
        Err(fault) => println!(rt; "{name}: offsets {fault:?}")?,
    }
    Ok(())
}

pub fn print_rows<R: Print + AllocGlobal>(rt: &R) -> Result<(), Failed> {
    let alloc = rt.alloc();
    print_made(rt, "{ i8, i32 }", small(alloc))?;
    print_made(rt, "{ i8, ptr, i16 }", wider(alloc))?;
    print_made(rt, "[2 x { i8, i32 }]", pairs(alloc))?;
    print_layout(rt, "{}", &Ty::Struct(List::new(alloc)))?;
    print_layout(rt, "i1", &Ty::One(Scalar::I1))?;
    print_made(rt, "[0 x i64]", bytes_of(alloc, 0, Scalar::I64))?;
    print_made(rt, "64 arrays of 1, i64", nested(alloc, 64, 1, Scalar::I64))?;
    print_made(rt, "30 arrays of 2, i8", nested(alloc, 30, 2, Scalar::I8))?;
    print_made(rt, "31 arrays of 2, i8", nested(alloc, 31, 2, Scalar::I8))?;
    print_wide(rt)?;
    let fields = wider_fields(alloc)?;
    print_offsets(rt, "{ i8, ptr, i16 }", fields.as_slice())?;
    let none = none_of_too_wide(alloc)?;
    print_offsets(rt, "{ [0 x [2147483648 x i8]] }", &[none])
}

/// `{ i8, ptr, i16 }`.
fn wider(alloc: Global) -> Result<Ty, OutOfMemory> {
    Ok(Ty::Struct(wider_fields(alloc)?))
}

/// `[count x scalar]`.
fn bytes_of(alloc: Global, count: u64, scalar: Scalar) -> Result<Ty, OutOfMemory> {
    array(alloc, count, Ty::One(scalar))
}

/// `[18446744073709551615 x {}]`.
fn empties(alloc: Global) -> Result<Ty, OutOfMemory> {
    array(alloc, u64::MAX, Ty::Struct(List::new(alloc)))
}

fn print_wide<R: Print + AllocGlobal>(rt: &R) -> Result<(), Failed> {
    let alloc = rt.alloc();
    print_made(
        rt,
        "[2147483647 x i8]",
        bytes_of(alloc, 2147483647, Scalar::I8),
    )?;
    print_made(
        rt,
        "[2147483648 x i8]",
        bytes_of(alloc, 2147483648, Scalar::I8),
    )?;
    print_made(rt, "[2^64-1 x i64]", bytes_of(alloc, u64::MAX, Scalar::I64))?;
    print_made(rt, "[2^64-1 x {}]", empties(alloc))?;
    print_made(rt, "[0 x [2147483648 x i8]]", none_of_too_wide(alloc))
}

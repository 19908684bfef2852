//! Types that the rows are about.
use ir_types::{Boxed, List, OutOfMemory, Scalar, Ty};
use std::alloc::Global;

/// `[count x element]`.
pub fn array(alloc: Global, count: u64, element: Ty) -> Result<Ty, OutOfMemory> {
    Ok(Ty::Array(count, Boxed::new(alloc, element)?))
}

/// `{ first, second }`.
pub fn pair(alloc: Global, first: Ty, second: Ty) -> Result<Ty, OutOfMemory> {
    let mut fields = List::new(alloc);
    fields.push(first)?;
    fields.push(second)?;
    Ok(Ty::Struct(fields))
}

/// `{ i8, i32 }`.
pub fn small(alloc: Global) -> Result<Ty, OutOfMemory> {
    pair(alloc, Ty::One(Scalar::I8), Ty::One(Scalar::I32))
}

/// `[2 x { i8, i32 }]`.
pub fn pairs(alloc: Global) -> Result<Ty, OutOfMemory> {
    array(alloc, 2, small(alloc)?)
}

/// The fields of `{ i8, ptr, i16 }`.
pub fn wider_fields(alloc: Global) -> Result<List<Ty>, OutOfMemory> {
    let mut fields = List::new(alloc);
    fields.push(Ty::One(Scalar::I8))?;
    fields.push(Ty::One(Scalar::Ptr))?;
    fields.push(Ty::One(Scalar::I16))?;
    Ok(fields)
}

/// `[0 x [2147483648 x i8]]`.
pub fn none_of_too_wide(alloc: Global) -> Result<Ty, OutOfMemory> {
    let bytes = array(alloc, 2147483648, Ty::One(Scalar::I8))?;
    array(alloc, 0, bytes)
}

/// The scalar in `depth` arrays of `count` elements each.
pub fn nested(alloc: Global, depth: usize, count: u64, scalar: Scalar) -> Result<Ty, OutOfMemory> {
    let mut ty = Ty::One(scalar);
    for _ in 0..depth {
        ty = array(alloc, count, ty)?;
    }
    Ok(ty)
}

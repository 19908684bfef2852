//! Offsets of constant addresses: what the indices of a constant `getelementptr` add up to.
ghost use Rattle.std.specs.Prelude.{◌≡◌, ◌^◌, ◌%◌, ◌<◌, IfOk, All, map, option_map};
ghost use Rattle.ir_types.specs.Nesting.{IsWithinNesting};
ghost use Rattle.ir_constants.specs.Mirrors.Indices.{IsIndex};
ghost use Rattle.ir_constants.specs.Offsets.{wide, index_of, added, total, offset_of};

use ir_scope::extend;
use ir_types::{Index, OutOfMemory, Scalar, Stride, Ty, WalkFault, walk_indices};
use sqlite_items::Items as List;
use std::alloc::Global;

/// What an index adds, modulo 2^64.
fn added(index: (Scalar, u64), stride: Stride) -> Option<u64>
    requires { IsIndex index }
    ensures { option_map (λ n. n % 2 ^ 64) (added index stride) ≡ result }
{
    match stride {
        Stride::Each(size) => Some(u64::from(size).wrapping_mul(extend(index.0, index.1))),
        Stride::Field(offset) => match index.0 {
            Scalar::I32 => Some(u64::from(offset)),
            _ => None,
        },
    }
}

/// What indices add together, modulo 2^64.
fn total(indices: &[(Scalar, u64)], strides: &[Stride]) -> Option<u64>
    requires { All IsIndex indices.now }
    ensures { option_map (λ n. n % 2 ^ 64) (total indices.now strides.now) ≡ result }
{
    let mut sum: u64 = 0;
    for (index, stride) in indices.iter().zip(strides) {
        match added(*index, *stride) {
            Some(offset) => sum = sum.wrapping_add(offset),
            None => return None,
        }
    }
    Some(sum)
}

/// The indices of a walk.
fn walked(alloc: Global, indices: &[(Scalar, u64)]) -> Result<List<Index>, OutOfMemory>
    ensures { IfOk result (λ walked. walked ≡ map index_of indices.now) }
{
    let mut walked = List::new(alloc);
    for (ty, number) in indices {
        walked.push(Index::Num(ty.signed(*number)))?;
    }
    Ok(walked)
}

/// The byte offset of a constant `getelementptr` from its base, modulo 2^64: what its indices add up to in a type.
/// Each index is its type and its number modulo 2^w. It is extended by its sign to 64 bits, as the LLVM Language
/// Reference Manual has it; the first steps over whole values of the type, an index into an array over elements, and
/// an index into a struct, which is of `i32`, names a field.
///
/// `None` is the answer where an index enters a scalar, where an index into a struct isn't of `i32` or names no field,
/// and where the type or one of its parts has a size of at least 2^31 bytes. `OutOfMemory` comes where the lists of
/// the walk find no memory.
pub fn offset_of(
    alloc: Global,
    ty: &Ty,
    indices: &[(Scalar, u64)],
) -> Result<Option<u64>, OutOfMemory>
    requires nests { IsWithinNesting ty.now }
    requires numbers { All IsIndex indices.now }
    ensures { IfOk result (λ found. option_map (λ n. n % 2 ^ 64) (offset_of ty.now indices.now) ≡ found) }
{
    let walked = walked(alloc, indices)?;
    match walk_indices(alloc, ty, walked.as_slice()) {
        Ok(strides) => Ok(total(indices, strides.as_slice())),
        Err(WalkFault::NoSuch { .. }) => Ok(None),
        Err(WalkFault::TooWide) => Ok(None),
        Err(WalkFault::OutOfMemory) => Err(OutOfMemory),
    }
}

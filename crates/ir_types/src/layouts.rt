//! Sizes, alignments and offsets of types in bytes. An integer of 1 or 8 bits takes 1 byte, one of
//! 16 bits 2, of 32 bits 4, and one of 64 bits and a pointer take 8. A scalar's alignment is its size.
ghost use Rattle.std.specs.Prelude.{◌≡◌, ◌↔◌, ◌^◌, ◌<◌, ◌≤◌, ◌+◌, ◌*◌, IfOk, OnOk, IfErr, OnErr, IsErr, Option, IsSome, None, length, map, slice_get};
ghost use Rattle.ir_types.specs.Layout.{extent, scalar_size, round_up, struct_size, struct_width, greatest_align, size, align, IsTooWide, IsLayoutCause, offset_of, offsets_from, fields_of};

use crate::{Scalar, TooWide, Ty};
use sqlite_items::Items as List;
use std::alloc::{AllocError, Global};

/// The least size that is too wide.
const LIMIT: u64 = 2147483648;

/// The size and the alignment of a type in bytes.
#[derive(Clone, Copy, Debug, PartialEq, Eq)]
pub struct Layout {
    pub size: u32,
    pub align: u32,
}

/// Why a struct has no list of offsets.
#[derive(Clone, Copy, Debug, PartialEq, Eq)]
pub enum LayoutFault {
    /// The struct, or a part of it, has a size of at least 2^31 bytes.
    TooWide,
    /// Memory was refused.
    OutOfMemory,
}

impl From<AllocError> for LayoutFault {
    ghost use Rattle.ir_types.specs.declared.layouts.LayoutFault.TheVariants.{OutOfMemory};

    ghost from_gives = { λ _ fault. fault ≡ OutOfMemory };

    fn from(_e: AllocError) -> LayoutFault {
        LayoutFault::OutOfMemory
    }
}

impl From<TooWide> for LayoutFault {
    ghost use Rattle.ir_types.specs.declared.layouts.LayoutFault.TheVariants.{TooWide};

    ghost from_gives = { λ _ fault. fault ≡ TooWide };

    fn from(_e: TooWide) -> LayoutFault {
        LayoutFault::TooWide
    }
}

fn scalar_width(scalar: Scalar) -> u32
    ensures value { result ≡ scalar_size scalar }
    ensures positive { 0 < result }
    ensures small { result ≤ 8 }
{
    match scalar {
        Scalar::I1 => 1,
        Scalar::I8 => 1,
        Scalar::I16 => 2,
        Scalar::I32 => 4,
        Scalar::I64 => 8,
        Scalar::Ptr => 8,
    }
}

/// The next multiple of an alignment, from an offset on.
fn rounded_up(offset: u64, align: u32) -> u64
    requires positive { 0 < align }
    requires small { align ≤ 8 }
    requires narrow { offset < 2 ^ 32 }
    ensures value { result ≡ round_up offset align }
    ensures above { offset ≤ result }
    ensures near { result < offset + align }
{
    let align = u64::from(align);
    offset + (align - offset % align) % align
}

/// The size that a whole number of bytes is, where it isn't too wide.
fn narrow(size: u64) -> Result<u32, TooWide>
    ensures ok { IfOk result (λ narrow. (narrow ≡ size) × (size < 2 ^ 31)) }
    ensures err { OnErr result (2 ^ 31 ≤ size) }
{
    if size < LIMIT {
        Ok(size as u32)
    } else {
        Err(TooWide)
    }
}

/// The size of so many elements of a size.
fn repeated(count: u64, size: u32) -> Result<u32, TooWide>
    ensures ok { IfOk result (λ whole. (whole ≡ count * size) × (count * size < 2 ^ 31)) }
    ensures err { OnErr result (2 ^ 31 ≤ count * size) }
{
    match count.checked_mul(size.into()) {
        Some(whole) => narrow(whole),
        None => Err(TooWide),
    }
}

/// The greatest alignment of its fields, where the type is a struct; a scalar's size; an element's.
fn alignment(ty: &Ty) -> u32
    ensures value { result ≡ align ty.now }
    ensures positive { 0 < result }
    ensures small { result ≤ 8 }
{
    match ty {
        Ty::One(scalar) => scalar_width(*scalar),
        Ty::Array(_, element) => alignment(element.get()),
        Ty::Struct(fields) => {
            let mut align = 1;
            for field in fields.as_slice() {
                align = align.max(alignment(field));
            }
            align
        }
    }
}

/// The size and the alignment of a type in bytes, in one pass over the type, as `size_of` and `align_of`
/// give them. `TooWide` comes exactly where the type or one of its parts has a size of at least 2^31
/// bytes. It recurses as deep as the type nests.
#[cycle(layout)]
pub fn layout_of(ty: &Ty) -> Result<Layout, TooWide>
    ensures size { IfOk result (λ layout. layout.size ≡ size ty.now) }
    ensures align { IfOk result (λ layout. layout.align ≡ align ty.now) }
    ensures positive { IfOk result (λ layout. 0 < layout.align) }
    ensures small { IfOk result (λ layout. layout.align ≤ 8) }
    ensures below { IfOk result (λ layout. layout.size < 2 ^ 31) }
    ensures narrow { OnOk result ((extent ty.now).widest < 2 ^ 31) }
    ensures wide { OnErr result (IsTooWide ty.now) }
{
    match ty {
        Ty::One(scalar) => {
            let size = scalar_width(*scalar);
            Ok(Layout { size, align: size })
        }
        Ty::Array(count, element) => {
            let element = layout_of(element.get())?;
            let size = repeated(*count, element.size)?;
            Ok(Layout {
                size,
                align: element.align,
            })
        }
        Ty::Struct(fields) => struct_layout(fields.as_slice()),
    }
}

/// The size and the alignment of a struct of these fields.
#[cycle(layout)]
fn struct_layout(fields: &[Ty]) -> Result<Layout, TooWide>
    ensures size { IfOk result (λ layout. layout.size ≡ struct_size (map extent fields.now)) }
    ensures align { IfOk result (λ layout. layout.align ≡ greatest_align (map extent fields.now)) }
    ensures positive { IfOk result (λ layout. 0 < layout.align) }
    ensures small { IfOk result (λ layout. layout.align ≤ 8) }
    ensures below { IfOk result (λ layout. layout.size < 2 ^ 31) }
    ensures narrow { OnOk result (struct_width (map extent fields.now) < 2 ^ 31) }
    ensures wide { OnErr result (2 ^ 31 ≤ struct_width (map extent fields.now)) }
{
    let mut end = 0;
    let mut align = 1;
    for field in fields {
        let field = layout_of(field)?;
        end = narrow(rounded_up(end.into(), field.align) + u64::from(field.size))?;
        align = align.max(field.align);
    }
    let size = narrow(rounded_up(end.into(), align))?;
    Ok(Layout { size, align })
}

/// The offset of the field at a place.
pub(crate) fn offset_in(fields: &[Ty], at: usize) -> Result<Option<u32>, TooWide>
    ensures ok { IfOk result (λ offset. offset ≡ slice_get (offsets_from 0 (map extent fields.now)) at) }
    ensures wide { OnErr result (2 ^ 31 ≤ struct_width (map extent fields.now)) }
{
    let mut end = 0;
    for (k, field) in fields.iter().enumerate() {
        let field = layout_of(field)?;
        let offset = narrow(rounded_up(end.into(), field.align))?;
        if k == at {
            return Ok(Some(offset));
        }
        end = narrow(u64::from(offset) + u64::from(field.size))?;
    }
    Ok(None)
}

/// The size of a type in bytes: an array's is that of its elements together; a struct's is the end
/// of its fields, each at the next multiple of its own alignment, rounded up to the struct's.
/// `TooWide` comes exactly where the type or one of its parts has a size of at least 2^31 bytes. It
/// recurses as deep as the type nests.
pub fn size_of(ty: &Ty) -> Result<u32, TooWide>
    ensures size { IfOk result (λ n. n ≡ size ty.now) }
    ensures narrow { IfOk result (λ n. n < 2 ^ 31) }
    ensures wide { IsErr result ↔ IsTooWide ty.now }
{
    let layout = layout_of(ty)?;
    Ok(layout.size)
}

/// The alignment of a type in bytes: a scalar's is its size, an array's that of its elements, and a
/// struct's the greatest of its fields, 1 without fields. It recurses as deep as the type nests.
pub fn align_of(ty: &Ty) -> u32
    ensures align { result ≡ align ty.now }
    ensures positive { 0 < result }
    ensures small { result ≤ 8 }
{
    alignment(ty)
}

/// The offset of a field of a struct in bytes, fields counted from 0: `None` exactly where the type
/// is no struct or has no such field. `TooWide` comes before it, exactly as `size_of` gives it. It
/// recurses as deep as the type nests.
pub fn field_offset(ty: &Ty, field: usize) -> Result<Option<u32>, TooWide>
    ensures offset { IfOk result (λ offset. offset ≡ offset_of ty.now field) }
    ensures there { IfOk result (λ offset. IsSome offset ↔ (field < length (fields_of ty.now))) }
    ensures wide { IsErr result ↔ IsTooWide ty.now }
{
    layout_of(ty)?;
    match ty {
        Ty::One(_) => Ok(None),
        Ty::Array(_, _) => Ok(None),
        Ty::Struct(fields) => offset_in(fields.as_slice(), field),
    }
}

/// The offsets of all fields of a struct in bytes, in one pass over their types: each field lies at the
/// next multiple of its own alignment behind the field before it. `TooWide` comes exactly where the
/// struct or one of its parts has a size of at least 2^31 bytes, and `OutOfMemory` where the list finds
/// no memory. It recurses as deep as the fields nest.
pub fn field_offsets(alloc: Global, fields: &[Ty]) -> Result<List<u32>, LayoutFault>
    ensures ok { IfOk result (λ offsets. offsets ≡ offsets_from 0 (map extent fields.now)) }
    ensures narrow { OnOk result (struct_width (map extent fields.now) < 2 ^ 31) }
    ensures cause { IfErr result (λ fault. IsLayoutCause fields.now fault) }
{
    let mut offsets = List::new(alloc);
    let mut end = 0;
    let mut align = 1;
    for field in fields {
        let field = layout_of(field)?;
        let offset = narrow(rounded_up(end.into(), field.align))?;
        offsets.push(offset)?;
        end = narrow(u64::from(offset) + u64::from(field.size))?;
        align = align.max(field.align);
    }
    narrow(rounded_up(end.into(), align))?;
    Ok(offsets)
}

//! Walks into a type by indices, as `getelementptr` takes them.
ghost use Rattle.std.specs.Prelude.{◌≡◌, ◌^◌, ◌<◌, ◌≤◌, ℕ, ◌++◌, ◌∷◌, Some, IfOk, OnOk, IfErr, OnErr, MatchOption, IsSome};
ghost use Rattle.std.specs.Option.{option_copied, option_map};
ghost use Rattle.ir_types.specs.Layout.{extent, IsTooWide};
ghost use Rattle.ir_types.specs.declared.shape.Stride.TheVariants.{Each};
ghost use Rattle.ir_types.specs.Walk.{place, part, stride, strides_within, strides, IsFirstLost, IsCause, IsWideOrNoMemory};

use crate::{Index, Stride, TooWide, Ty, WalkFault, layouts};
use sqlite_items::Items as List;
use std::alloc::{AllocError, Global};

impl From<AllocError> for WalkFault {
    ghost use Rattle.ir_types.specs.declared.shape.WalkFault.TheVariants.{OutOfMemory};

    ghost from_gives = { λ _ fault. fault ≡ OutOfMemory };

    fn from(_e: AllocError) -> WalkFault {
        WalkFault::OutOfMemory
    }
}

impl From<TooWide> for WalkFault {
    ghost use Rattle.ir_types.specs.declared.shape.WalkFault.TheVariants.{TooWide};

    ghost from_gives = { λ _ fault. fault ≡ TooWide };

    fn from(_e: TooWide) -> WalkFault {
        WalkFault::TooWide
    }
}

/// The place of a field that an index names.
fn place_of(index: Index) -> Option<usize>
    ensures { result ≡ place index }
{
    match index {
        Index::Num(number) => {
            if number < 0 {
                return None;
            }
            Some(number as usize)
        }
        Index::Register => None,
    }
}

/// The part of the type that an index enters.
fn entered(ty: &Ty, index: Index) -> Option<&Ty>
    ensures { option_copied result ≡ part ty.now index }
{
    match ty {
        Ty::One(_) => None,
        Ty::Array(_, element) => Some(element.get()),
        Ty::Struct(fields) => match place_of(index) {
            Some(at) => fields.get(at),
            None => None,
        },
    }
}

/// What an index adds.
fn stride_at(ty: &Ty, index: Index) -> Result<Option<Stride>, TooWide>
    ensures ok { IfOk result (λ found. found ≡ stride ty.now index) }
    ensures wide { OnErr result (IsTooWide ty.now) }
{
    match ty {
        Ty::One(_) => Ok(None),
        Ty::Array(_, element) => {
            let layout = layouts::layout_of(element.get())?;
            Ok(Some(Stride::Each(layout.size)))
        }
        Ty::Struct(fields) => match place_of(index) {
            Some(at) => match layouts::offset_in(fields.as_slice(), at)? {
                Some(offset) => Ok(Some(Stride::Field(offset))),
                None => Ok(None),
            },
            None => Ok(None),
        },
    }
}

/// The first index that goes nowhere, each within the part that the one before it entered.
fn first_lost(ty: &Ty, indices: &[Index]) -> Option<usize>
    ensures { MatchOption result (IsSome (strides_within ty.now indices.now)) (IsFirstLost (strides_within ty.now) indices.now) }
{
    let mut part = ty;
    for (at, index) in indices.iter().enumerate() {
        match entered(part, *index) {
            Some(inner) => part = inner,
            None => return Some(at),
        }
    }
    None
}

/// Adds what the indices add to `strides`, each within the part that the one before it entered.
fn add_strides(
    ty: &Ty,
    indices: &[Index],
    mut strides: List<Stride>,
) -> Result<List<Stride>, WalkFault>
    requires { IsSome (strides_within ty.now indices.now) }
    ensures ok { IfOk result (λ all. option_map (λ more. strides ++ more) (strides_within ty.now indices.now) ≡ Some all) }
    ensures err { IfErr result (IsWideOrNoMemory ty.now) }
{
    let mut part = ty;
    for index in indices {
        let Some(stride) = stride_at(part, *index)? else {
            unreachable!()
        };
        let Some(inner) = entered(part, *index) else {
            unreachable!()
        };
        strides.push(stride)?;
        part = inner;
    }
    Ok(strides)
}

/// The strides of a walk with at least one index, of which these are the others.
fn walk_on(alloc: Global, ty: &Ty, size: u32, others: &[Index]) -> Result<List<Stride>, WalkFault>
    requires { IsSome (strides_within ty.now others.now) }
    ensures ok { IfOk result (λ all. option_map (λ more. Each size ∷ more) (strides_within ty.now others.now) ≡ Some all) }
    ensures err { IfErr result (IsWideOrNoMemory ty.now) }
{
    let mut strides = List::new(alloc);
    strides.push(Stride::Each(size))?;
    add_strides(ty, others, strides)
}

/// What each index of a walk into a type adds to the offset, as `getelementptr` adds it. The first
/// index steps over whole values of the type. Each other one enters a part of what the one before it
/// entered: an array steps by the size of its element, and a struct gives its field's offset.
///
/// `NoSuch { at }` is the first index, counted from 0, that enters a scalar, or names a field of a
/// struct by a register or out of range. `TooWide` comes after it, where the type or one of its parts
/// has a size of at least 2^31 bytes, and `OutOfMemory` where the list finds no memory. It recurses as deep as the
/// type nests.
pub fn walk_indices(alloc: Global, ty: &Ty, indices: &[Index]) -> Result<List<Stride>, WalkFault>
    ensures strides { IfOk result (λ all. strides ty.now indices.now ≡ Some all) }
    ensures narrow { OnOk result (¬ IsTooWide ty.now) }
    ensures cause { IfErr result (λ fault. IsCause ty.now indices.now fault) }
{
    match indices {
        [] => {
            layouts::size_of(ty)?;
            Ok(List::new(alloc))
        }
        [_, others @ ..] => {
            if let Some(at) = first_lost(ty, others) {
                return Err(WalkFault::NoSuch { at: at + 1 });
            }
            let size = layouts::size_of(ty)?;
            walk_on(alloc, ty, size, others)
        }
    }
}

//! Types of values in memory, and what a walk into one says.
use crate::Scalar;
use sqlite_items::{Boxed, Items as List};

/// A type of a value in memory: a scalar, `[n x T]` or `{ T, T }`.
#[derive(Debug, Drop)]
pub enum Ty {
    One(Scalar),
    Array(u64, Boxed<Ty>),
    Struct(List<Ty>),
}

/// The type, or a part of it, has a size of at least 2^31 bytes.
#[derive(Clone, Copy, Debug, PartialEq, Eq)]
pub struct TooWide;

/// An index of a walk into a type: a number that is known, or a register.
#[derive(Clone, Copy, Debug, PartialEq, Eq)]
pub enum Index {
    Num(i64),
    Register,
}

/// What an index adds to the offset: so many bytes for each step, or a field's offset.
#[derive(Clone, Copy, Debug, PartialEq, Eq)]
pub enum Stride {
    Each(u32),
    Field(u32),
}

/// Why a walk has no strides. `at` is the place of the index that goes nowhere.
#[derive(Clone, Copy, Debug, PartialEq, Eq)]
pub enum WalkFault {
    TooWide,
    NoSuch { at: usize },
    OutOfMemory,
}

//! What an operation gives.
use crate::Cause;

/// What an operation on integers gives: a number of the result's type, poison, or nothing, since its behaviour is undefined.
#[derive(Clone, Copy, Debug, PartialEq, Eq, Hash)]
pub enum Outcome {
    Num(u64),
    Poison,
    Undefined(Cause),
}

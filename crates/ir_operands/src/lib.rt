//! Operands, flags and alignments of instructions, from what is kept of their tokens.
#![tactic(auto)]

mod marks;
mod modifiers;
mod names;
mod operands;

pub use marks::{after, begins_scalar, closes_paren, dots, ext, scalar};
pub use modifiers::{align, exponent, flags, inbounds, nneg};
pub use names::Names;
pub use operands::{block, operand, pair, typed_operand, typed_pair, typed_place};

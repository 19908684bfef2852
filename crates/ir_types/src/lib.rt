//! The data that every other crate stands on: bytes, lists, and the types of the LLVM subset.
#![tactic(auto)]

mod bytes;
mod copied;
mod layouts;
mod memory;
mod name;
mod scalar;
mod scalars;
mod shape;
mod walk;

pub use bytes::Bytes;
pub use copied::Copied;
pub use layouts::{Layout, LayoutFault, align_of, field_offset, field_offsets, layout_of, size_of};
pub use memory::OutOfMemory;
pub use name::is_name;
pub use scalar::{BinOp, CastOp, Ext, Flags, FnType, Known, Pred, Scalar};
pub use shape::{Index, Stride, TooWide, Ty, WalkFault};
pub use sqlite_items::{Boxed, Items as List};
pub use walk::walk_indices;

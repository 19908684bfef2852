//! Modules of the LLVM subset as data: items, bodies, instructions, and the symbols of a program.
#![tactic(auto)]

mod body;
mod callees;
mod constant;
mod copies;
mod edges;
mod function_types;
mod item;
mod known;
mod laws;
mod mapped;
mod named;
mod operands;
mod program;
mod results;
mod symbol;

pub use body::{Arg, Block, Body, Inst, Phi, Term};
pub use constant::{Const, Operand};
pub use item::{Func, Item, Linkage, Module, Param, Var};
pub use laws::{functions_are_sound, mapping_keeps_the_rest, walks_have_strides};
pub use mapped::MapOperand;
pub use program::Program;
pub use symbol::{Builtin, Intrinsic, Sym, SymName, Target};

//! Constants and operands.
use ir_types::Bytes;
use sqlite_items::Items as List;

/// A constant. Its type is written where it stands.
#[derive(Debug, Drop)]
pub enum Const {
    /// An integer, modulo 2^w of its type.
    Int(u64),
    Null,
    /// The address of an item of the module, by its place, and a byte offset.
    Addr(usize, i64),
    Undef,
    Poison,
    /// `zeroinitializer` of an aggregate.
    Zero,
    /// `c"text"`.
    Text(Bytes),
    /// The parts of an array or a struct.
    Many(List<Const>),
}

/// What an instruction works on: a parameter by its place, a result by its number, or a constant.
#[derive(Debug, Drop)]
pub enum Operand {
    Param(usize),
    Reg(usize),
    Const(Const),
}

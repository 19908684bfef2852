//! The productions of the form, with names and numbers as they are written.
use ir_types::Bytes;
use sqlite_items::Items as List;

/// An operand: the digits of an integer, or the name of a parameter or a register without `%`.
#[derive(Debug, Drop)]
pub enum Value {
    Number(Bytes),
    Local(Bytes),
}

/// An instruction: `%name = add i32 a, b` or `%name = call i32 @callee(i32 a, i32 b)`.
#[derive(Debug, Drop)]
pub enum Line {
    Add {
        name: Bytes,
        a: Value,
        b: Value,
    },
    Call {
        name: Bytes,
        callee: Bytes,
        args: List<Value>,
    },
}

/// A definition: `define [internal] i32 @name(i32 %p, i32 %q) { [label:] lines ret i32 result }`.
#[derive(Debug, Drop)]
pub struct Entity {
    pub internal: bool,
    pub name: Bytes,
    pub params: List<Bytes>,
    pub label: Option<Bytes>,
    pub lines: List<Line>,
    pub result: Value,
}

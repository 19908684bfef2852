//! Modules and their items.
use crate::{Body, Const};
use ir_types::{Bytes, Ext, Scalar, Ty};
use sqlite_items::Items as List;

/// Who sees a symbol: every module, or its own alone.
#[derive(Clone, Copy, Debug, PartialEq, Eq)]
pub enum Linkage {
    External,
    Internal,
    Private,
}

/// A variable. Without a constant it is a declaration. `align` is the exponent of two.
#[derive(Debug, Drop)]
pub struct Var {
    pub name: Bytes,
    pub linkage: Linkage,
    pub constant: bool,
    pub ty: Ty,
    pub init: Option<Const>,
    pub align: Option<u8>,
}

/// A parameter of a function.
#[derive(Clone, Copy, Debug, PartialEq, Eq)]
pub struct Param {
    pub ty: Scalar,
    pub ext: Ext,
}

/// A function. Without a body it is a declaration. `returns` is `None` for `void`.
#[derive(Debug, Drop)]
pub struct Func {
    pub name: Bytes,
    pub linkage: Linkage,
    pub returns: Option<Scalar>,
    pub ret_ext: Ext,
    pub params: List<Param>,
    pub variadic: bool,
    pub body: Option<Body>,
}

/// A variable or a function of a module.
#[derive(Debug, Drop)]
pub enum Item {
    Var(Var),
    Func(Func),
}

/// A module: its data layout and target triple as text, and its items in the order of the text.
#[derive(Debug, Drop)]
pub struct Module {
    pub layout: Option<Bytes>,
    pub triple: Option<Bytes>,
    pub items: List<Item>,
}

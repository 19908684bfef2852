//! Symbols of a program.
use ir_types::Bytes;

/// An item of a program: its module's place, and its own in the module.
#[derive(Clone, Copy, Debug, PartialEq, Eq, PartialOrd, Ord, Hash)]
pub struct Sym {
    pub module: usize,
    pub item: usize,
}

/// A symbol by name. `home` is the module of a local symbol, and `None` of an external one.
#[derive(Debug, Drop)]
pub struct SymName {
    pub home: Option<usize>,
    pub name: Bytes,
}

/// The functions that every program may call without defining them.
#[derive(Clone, Copy, Debug, PartialEq, Eq)]
pub enum Builtin {
    Malloc,
    Calloc,
    Free,
    Exit,
    Abort,
}

/// The intrinsics of the subset.
#[derive(Clone, Copy, Debug, PartialEq, Eq)]
pub enum Intrinsic {
    Memcpy,
    Memmove,
    Memset,
}

/// What an item stands for in a program.
#[derive(Clone, Copy, Debug, PartialEq, Eq)]
pub enum Target {
    Def(Sym),
    Outside,
    Builtin(Builtin),
    Intrinsic(Intrinsic),
    Nothing,
}

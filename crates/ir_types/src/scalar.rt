//! Scalar types, function types, and the operations of the subset.
ghost use Rattle.std.specs.Prelude.{◌≡◌, ◌↔◌, IsTrue};

use sqlite_items::Items as List;

/// A type of one value: an integer of 1, 8, 16, 32 or 64 bits, or a pointer.
#[derive(Clone, Copy, Debug, PartialEq, Eq, Hash)]
pub enum Scalar {
    I1,
    I8,
    I16,
    I32,
    I64,
    Ptr,
}

/// How a narrow integer is widened at a call: not said, `signext` or `zeroext`.
#[derive(Clone, Copy, Debug, PartialEq, Eq, Hash)]
pub enum Ext {
    Plain,
    Signed,
    Unsigned,
}

/// The type of a function. `returns` is `None` for `void`.
#[derive(Debug, Drop)]
pub struct FnType {
    pub params: List<Scalar>,
    pub variadic: bool,
    pub returns: Option<Scalar>,
}

/// Whether two lists of types are one.
fn are_same(a: &[Scalar], b: &[Scalar]) -> bool
    ensures { IsTrue result ↔ (a.now ≡ b.now) }
{
    if a.len() != b.len() {
        return false;
    }
    for (i, ty) in a.iter().enumerate() {
        if *ty != b[i] {
            return false;
        }
    }
    true
}

/// Whether two functions return the same.
fn return_same(a: Option<Scalar>, b: Option<Scalar>) -> bool
    ensures { IsTrue result ↔ (a ≡ b) }
{
    match a {
        Some(one) => match b {
            Some(other) => one == other,
            None => false,
        },
        None => b.is_none(),
    }
}

impl FnType {
    /// Whether two types of functions are one: the same parameters, both variadic or neither, and the same result.
    pub fn is_same(&self, other: &FnType) -> bool
        ensures { IsTrue result ↔ (self.now ≡ other.now) }
    {
        are_same(self.params.as_slice(), other.params.as_slice())
            && self.variadic == other.variadic
            && return_same(self.returns, other.returns)
    }
}

/// What is known of a value before the program runs. A number is taken modulo 2^w of its integer type.
#[derive(Clone, Copy, Debug, Default, PartialEq, Eq, Hash)]
pub enum Known {
    #[default]
    Unknown,
    Num(u64),
    Null,
}

/// The integer operations of two operands.
#[derive(Clone, Copy, Debug, PartialEq, Eq, Hash)]
pub enum BinOp {
    Add,
    Sub,
    Mul,
    Udiv,
    Sdiv,
    Urem,
    Srem,
    Shl,
    Lshr,
    Ashr,
    And,
    Or,
    Xor,
}

/// The flags of an integer operation: where one doesn't hold, the result is poison.
#[derive(Clone, Copy, Debug, PartialEq, Eq, Hash)]
pub struct Flags {
    pub nuw: bool,
    pub nsw: bool,
    pub exact: bool,
    pub disjoint: bool,
}

/// The predicates of `icmp`.
#[derive(Clone, Copy, Debug, PartialEq, Eq, Hash)]
pub enum Pred {
    Eq,
    Ne,
    Ugt,
    Uge,
    Ult,
    Ule,
    Sgt,
    Sge,
    Slt,
    Sle,
}

/// The casts between integer types.
#[derive(Clone, Copy, Debug, PartialEq, Eq, Hash)]
pub enum CastOp {
    Zext,
    Sext,
    Trunc,
}

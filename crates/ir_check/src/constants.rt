//! Equality of constants and operands.
ghost use Rattle.std.specs.Prelude.{◌≡◌, ◌↔◌, IsTrue};

use ir_syntax::{Const, Operand};

/// Whether two constants are equal. It recurses as deep as both nest.
#[cycle(constants)]
fn same_const(a: &Const, b: &Const) -> bool
    ensures { IsTrue result ↔ (a.now ≡ b.now) }
{
    match a {
        Const::Int(x) => matches!(b, Const::Int(y) if x == y),
        Const::Null => matches!(b, Const::Null),
        Const::Addr(x, from) => matches!(b, Const::Addr(y, to) if x == y && from == to),
        Const::Undef => matches!(b, Const::Undef),
        Const::Poison => matches!(b, Const::Poison),
        Const::Zero => matches!(b, Const::Zero),
        Const::Text(x) => matches!(b, Const::Text(y) if x == y),
        Const::Many(x) => match b {
            Const::Many(y) => same_consts(x.as_slice(), y.as_slice()),
            _ => false,
        },
    }
}

/// Whether two lists of constants are equal.
#[cycle(constants)]
fn same_consts(a: &[Const], b: &[Const]) -> bool
    ensures { IsTrue result ↔ (a.now ≡ b.now) }
{
    if a.len() != b.len() {
        return false;
    }
    for (i, x) in a.iter().enumerate() {
        if !same_const(x, &b[i]) {
            return false;
        }
    }
    true
}

/// Whether two operands are equal.
pub fn same_operand(a: &Operand, b: &Operand) -> bool
    ensures { IsTrue result ↔ (a.now ≡ b.now) }
{
    match a {
        Operand::Param(x) => matches!(b, Operand::Param(y) if x == y),
        Operand::Reg(x) => matches!(b, Operand::Reg(y) if x == y),
        Operand::Const(x) => match b {
            Operand::Const(y) => same_const(x, y),
            _ => false,
        },
    }
}

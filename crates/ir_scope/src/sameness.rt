//! Whether two types are one.
ghost use Rattle.std.specs.Prelude.{◌≡◌, ◌<◌, map, IsTrue};
ghost use Rattle.ir_types.specs.declared.shape.Ty.{Ty as TypeValue};
ghost use Rattle.ir_syntax.specs.Suits.{each_takes};
ghost use Rattle.ir_types.specs.Scalars.{same};
ghost use Rattle.ir_scope.specs.Types.{same_type};

use ir_types::{Scalar, Ty};

/// Whether two scalars are one.
fn same_scalar(one: Scalar, other: Scalar) -> bool
    ensures { result ≡ same one other }
{
    one == other
}

/// Whether two types are one. It recurses as deep as both nest.
#[cycle(sameness)]
pub fn same_type(one: &Ty, other: &Ty) -> bool
    ensures { result ≡ same_type one.now other.now }
{
    match one {
        Ty::One(scalar) => match other {
            Ty::One(same) => same_scalar(*scalar, *same),
            Ty::Array(_, _) => false,
            Ty::Struct(_) => false,
        },
        Ty::Array(count, element) => match other {
            Ty::One(_) => false,
            Ty::Array(same, second) => count == same && same_type(element.get(), second.get()),
            Ty::Struct(_) => false,
        },
        Ty::Struct(fields) => match other {
            Ty::One(_) => false,
            Ty::Array(_, _) => false,
            Ty::Struct(others) => same_types(fields.as_slice(), others.as_slice()),
        },
    }
}

/// Whether two lists of types are one.
#[cycle(sameness)]
fn same_types(ones: &[Ty], others: &[Ty]) -> bool
    ensures { result ≡ each_takes (map same_type ones.now) others.now }
{
    if ones.len() != others.len() {
        return false;
    }
    for (at, one) in ones.iter().enumerate() {
        if !same_type(one, &others[at]) {
            return false;
        }
    }
    true
}

/// Types that `same_type` finds to be one are equal, and each type is one with itself.
pub fn same_type_is_equality()
    ensures equal { (a b : TypeValue) → IsTrue (same_type a b) → a ≡ b }
    ensures reflexive { (a : TypeValue) → IsTrue (same_type a a) }
{}

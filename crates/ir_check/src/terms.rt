//! Types of terminators.
ghost use Rattle.std.specs.Prelude.{◌≡◌, ◌≢◌, ◌↔◌, IsTrue, IfOk, Some};
ghost use Rattle.std.specs.List.{AllPairs};
ghost use Rattle.ir_syntax.specs.Typed.{TypedTerm};
ghost use Rattle.ir_check.specs.Scopes.{types_of};

use crate::operands::{has_type, same_scalar};
use crate::scope::Scope;
use ir_syntax::Term;
use ir_types::{OutOfMemory, Scalar};
use std::alloc::Global;
use std::collections::BTreeSet;

/// Whether the cases of a switch are distinct.
fn are_distinct(alloc: Global, cases: &[(u64, usize)]) -> Result<bool, OutOfMemory>
    ensures { IfOk result (λ distinct. IsTrue distinct ↔ AllPairs (λ a b. a.0 ≢ b.0) cases.now) }
{
    let seen: BTreeSet<u64> = cases.iter().map(|case| case.0).collect(alloc)?;
    Ok(seen.len() == cases.len())
}

/// Whether a function that returns so returns values of this type.
fn is_returned(returns: Option<Scalar>, ty: Scalar) -> bool
    ensures { IsTrue result ↔ (returns ≡ Some ty) }
{
    match returns {
        Some(found) => same_scalar(found, ty),
        None => false,
    }
}

/// Whether the terminator of a function with this return type is well typed.
pub fn is_typed_term(
    alloc: Global,
    scope: &Scope,
    returns: Option<Scalar>,
    term: &Term,
) -> Result<bool, OutOfMemory>
    ensures { IfOk result (λ typed. IsTrue typed ↔ TypedTerm (types_of scope.now) returns term.now) }
{
    match term {
        Term::RetVoid => Ok(returns.is_none()),
        Term::Ret(ty, value) => { Ok(is_returned(returns, *ty) && has_type(scope, *ty, value)) }
        Term::Br(_) => Ok(true),
        Term::CondBr(cond, _, _) => Ok(has_type(scope, Scalar::I1, cond)),
        Term::Switch {
            ty,
            value,
            cases,
            ..
        } => {
            let distinct = are_distinct(alloc, cases.as_slice())?;
            Ok(ty.is_integer() && has_type(scope, *ty, value) && distinct)
        }
        Term::Unreachable => Ok(true),
    }
}

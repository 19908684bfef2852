//! The types of functions.
ghost use Rattle.std.specs.Prelude.{◌≡◌, ◌++◌, ◌↔◌, IsTrue, IfOk, map};
ghost use Rattle.ir_syntax.specs.FunctionTypes.{type_of};

use crate::{Func, Param};
use ir_types::{FnType, OutOfMemory, Scalar};
use sqlite_items::Items as List;
use std::alloc::Global;

/// The types of parameters.
fn types_of(alloc: Global, params: &[Param]) -> Result<List<Scalar>, OutOfMemory>
    ensures { IfOk result (λ types. types ≡ map (λ param. param.ty) params.now) }
{
    let mut types = List::new(alloc);
    for param in params {
        types.push(param.ty)?;
    }
    Ok(types)
}

/// Whether the parameters have these types.
fn have_types(params: &[Param], types: &[Scalar]) -> bool
    ensures { IsTrue result ↔ (map (λ param. param.ty) params.now ≡ types.now) }
{
    if params.len() != types.len() {
        return false;
    }
    for (i, param) in params.iter().enumerate() {
        if param.ty != types[i] {
            return false;
        }
    }
    true
}

/// Whether two functions return the same.
fn return_same(a: Option<Scalar>, b: Option<Scalar>) -> bool
    ensures { IsTrue result ↔ (a ≡ b) }
{
    match a {
        Some(one) => match b {
            Some(other) => one == other,
            None => false,
        },
        None => b.is_none(),
    }
}

impl Func {
    /// The type of the function. The error is want of memory.
    pub fn fn_type(&self, alloc: Global) -> Result<FnType, OutOfMemory>
        ensures { IfOk result (λ ty. ty ≡ type_of self.now) }
    {
        Ok(FnType {
            params: types_of(alloc, self.params.as_slice())?,
            variadic: self.variadic,
            returns: self.returns,
        })
    }

    /// Whether the function has this type. It takes no memory.
    pub fn has_type(&self, ty: &FnType) -> bool
        ensures { IsTrue result ↔ (type_of self.now ≡ ty.now) }
    {
        have_types(self.params.as_slice(), ty.params.as_slice())
            && self.variadic == ty.variadic
            && return_same(self.returns, ty.returns)
    }
}

//! What the operands of a body may be.
use ir_syntax::{Item, Param};
use ir_types::Scalar;

/// The items of the module, and the parameters and the types of the results of the function at hand.
#[derive(Clone, Copy)]
pub struct Scope<'a> {
    pub items: &'a [Item],
    pub params: &'a [Param],
    pub results: &'a [Scalar],
}

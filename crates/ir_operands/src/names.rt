//! What names stand for in a function.
use ir_locals::Locals;
use ir_scope::Scope;

/// What names stand for in a function: in its module, and in itself.
#[derive(Clone, Copy)]
pub struct Names<'a> {
    pub scope: &'a Scope,
    pub locals: &'a Locals,
}

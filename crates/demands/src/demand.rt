//! Demands.
use crate::Pattern;
use ir_syntax::Sym;

/// What may be needed of a program: a function whose parameters are known so far, or a variable.
#[derive(Debug, Drop)]
pub enum Demand {
    Func { func: Sym, pattern: Pattern },
    Var { var: Sym },
}

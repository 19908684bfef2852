//! Where an access goes.
use crate::Name;
use ir_syntax::Sym;

/// A block by its name, and an offset in it.
#[derive(Debug, Drop)]
pub struct Spot {
    pub of: Name<Sym>,
    pub offset: usize,
}

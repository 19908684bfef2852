//! What a function calls and names.
use demands::Pattern;
use ir_syntax::Sym;
use ir_types::List;

/// The calls of functions by their names, with what is known of the arguments, and every other naming of a symbol.
#[derive(Debug, Drop)]
pub struct Outgoing {
    pub calls: List<(Sym, Pattern)>,
    pub named: List<Sym>,
}

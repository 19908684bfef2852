//! Symbols that were seen.
ghost use Rattle.std.specs.Prelude.{◌≡◌, false, not, ◌||◌, IfOk, OnOk};
ghost use Rattle.ir_syntax.specs.declared.symbol.Sym as symbols;
ghost use Rattle.interface.specs.Roots.{is_symbol};
ghost use Rattle.interface.specs.Mirrors.Seen.{has};

use ir_syntax::Sym;
use ir_types::OutOfMemory;
use std::alloc::Global;
use std::collections::HashSet;

/// A set of symbols.
#[derive(Drop)]
pub(crate) struct Seen {
    symbols: HashSet<(usize, usize)>,
}

impl Seen {
    /// No symbols.
    pub(crate) fn new(alloc: Global) -> Seen
        ensures { (t : symbols.Sym) → has result t ≡ false }
    {
        Seen {
            symbols: HashSet::new(alloc),
        }
    }

    /// Adds a symbol. Gives whether it is new.
    pub(crate) fn add(&mut self, symbol: Sym) -> Result<bool, OutOfMemory>
        ensures new { IfOk result (λ added. added ≡ not (has self.old symbol)) }
        ensures adds { OnOk result ((t : symbols.Sym) → has self.new t ≡ (is_symbol symbol t || has self.old t)) }
    {
        Ok(self.symbols.insert((symbol.module, symbol.item))?)
    }
}

//! What a phi says of its result.
ghost use Rattle.std.specs.Prelude.{◌≡◌};
ghost use Rattle.fold_facts.specs.Phis.{entry_fact as of_entry, phi_fact as of_phi};

use crate::operands::operand_fact;
use crate::order::join;
use crate::{Assignment, Fact};
use ir_syntax::{Operand, Phi};
use ir_types::Known;

/// What an entry of a phi adds, of the block at `place`: nothing where no edge from its block is reached.
fn entry_fact(known: &[Known], a: &Assignment, place: usize, entry: &(Operand, usize)) -> Fact
    ensures { result ≡ of_entry (record { known = known.now }) a.now place entry.now }
{
    if a.enters(entry.1, place) {
        operand_fact(known, a.facts(), &entry.0)
    } else {
        Fact::Unreached
    }
}

/// What a phi of the block at `place` says of its result.
pub(crate) fn phi_fact(known: &[Known], a: &Assignment, place: usize, phi: &Phi) -> Fact
    ensures { result ≡ of_phi (record { known = known.now }) a.now place phi.now }
{
    let mut fact = Fact::Unreached;
    for entry in phi.entries.as_slice() {
        fact = join(fact, entry_fact(known, a, place, entry));
    }
    fact
}

//! What a place says.
ghost use Rattle.std.specs.Prelude.{◌≡◌, ◌+◌, Some, IsSome, slice_get, option_and_then};
ghost use Rattle.fold_facts.specs.Places.{blocks_of as blocks_in, IsPlaceIn, said_at, entry_at, entry_said_at};
ghost use Rattle.fold_facts.specs.OfFunction.{IsAssignmentOf};

use crate::instructions::inst_fact;
use crate::operands::operand_fact;
use crate::phis::phi_fact;
use crate::terminators::term_edges;
use crate::{Assignment, Fact, Place, Said};
use ir_syntax::{Block, Func, Operand};
use ir_types::Known;
use occam_base::Steps;
use std::sync::ledger::Ledger;

/// The blocks of a function. A declaration has none.
pub(crate) fn blocks_of(f: &Func) -> &[Block]
    ensures { result.now ≡ blocks_in f.now }
{
    match &f.body {
        Some(body) => body.blocks.as_slice(),
        None => &[],
    }
}

/// What the phi, instruction or terminator at a place asks for, where `known` is known of the parameters and `a` of the
/// results and edges: of a phi or another instruction a fact that its result is at least, and of a terminator edges that are
/// reached. The place's block is taken as reached, whether `a` reaches it or not. An instruction without a result says that it
/// varies. A terminator says `Nothing` where it asks for no edge, else `All` where it asks for each, else `Only` the one.
///
/// The call counts one step, and takes no memory. The place is to be one of the function.
pub fn transfer<L: Ledger>(
    f: &Func,
    known: &[Known],
    at: Place,
    a: &Assignment,
    steps: &mut Steps<L>,
) -> Said
    requires { IsPlaceIn (blocks_in f.now) at }
    ensures said { Some result ≡ said_at (record { known = known.now }) (blocks_in f.now) a.now at }
    ensures steps { steps.new ≡ steps.old + 1 }
{
    steps.tick();
    let blocks = blocks_of(f);
    match at {
        Place::Phi(place, k) => {
            let phi = &blocks[place].phis.as_slice()[k];
            Said::Fact(phi_fact(known, a, place, phi))
        }
        Place::Inst(place, k) => {
            let inst = &blocks[place].insts.as_slice()[k];
            Said::Fact(inst_fact(known, a.facts(), inst))
        }
        Place::Term(place) => Said::Edges(term_edges(known, a.facts(), &blocks[place].term)),
    }
}

/// An entry of a phi.
fn entry_of(blocks: &[Block], at: usize, phi: usize, entry: usize) -> &(Operand, usize)
    requires { IsSome (entry_at blocks.now at phi entry) }
    ensures { entry_at blocks.now at phi entry ≡ Some result.now }
{
    let phi = &blocks[at].phis.as_slice()[phi];
    &phi.entries.as_slice()[entry]
}

/// What an entry of a phi asks for where the edge that it stands for is reached: that the phi's result is at least the fact of
/// the entry's operand. A phi asks for the join of what its entries do. `at` is the phi's block, `phi` its place there, and
/// `entry` the place among its entries.
///
/// The call counts one step, and takes no memory. The entry is to be one of the function.
pub fn transfer_entry<L: Ledger>(
    f: &Func,
    known: &[Known],
    at: usize,
    phi: usize,
    entry: usize,
    a: &Assignment,
    steps: &mut Steps<L>,
) -> Fact
    requires { IsSome (entry_at (blocks_in f.now) at phi entry) }
    ensures said { Some result ≡ entry_said_at (record { known = known.now }) (blocks_in f.now) a.now.facts at phi entry }
    ensures steps { steps.new ≡ steps.old + 1 }
{
    steps.tick();
    let entry = entry_of(blocks_of(f), at, phi, entry);
    operand_fact(known, a.facts(), &entry.0)
}

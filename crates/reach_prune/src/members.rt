//! The members of a set of demands.
ghost use Rattle.std.specs.Prelude.{◌≡◌, ◌++◌, IfOk, OnOk, option_to_list, reverse};
ghost use Rattle.std.specs.List.{filter_map};
ghost use Rattle.winnowed_form.specs.Members.{AreMembers, member_of as member_by};

use demand_core::Row;
use demands::{RowFault, demand_of};
use ir_syntax::Program;
use ir_types::{List, OutOfMemory};
use specialise::Piece;
use std::alloc::Global;
use winnowed_form::Member;

/// Adds the member of a row with its piece, if the row is a demand's.
fn add_member(
    alloc: Global,
    members: &mut Vec<Member>,
    p: &Program,
    pair: (Row, Piece),
) -> Result<(), OutOfMemory>
    ensures { OnOk result (members.new.items ≡ members.old.items ++ option_to_list (member_by p.now pair)) }
{
    let (row, piece) = pair;
    match demand_of(alloc, p, &row) {
        Ok(demand) => {
            members.push(Member {
                demand,
                body: piece.body,
            })?;
            Ok(())
        }
        Err(RowFault::NoDemand) => Ok(()),
        Err(RowFault::OutOfMemory) => Err(OutOfMemory),
    }
}

/// The members of these pieces, from the last to the first.
fn reversed(
    alloc: Global,
    p: &Program,
    mut pieces: List<(Row, Piece)>,
) -> Result<Vec<Member>, OutOfMemory>
    ensures { IfOk result (λ members. reverse members.items ≡ filter_map (member_by p.now) pieces) }
{
    let mut members = Vec::new(alloc);
    while let Some(pair) = pieces.pop() {
        add_member(alloc, &mut members, p, pair)?;
    }
    Ok(members)
}

/// The members of these pieces, in the order of demands.
pub(crate) fn members_of(
    alloc: Global,
    p: &Program,
    pieces: List<(Row, Piece)>,
) -> Result<Vec<Member>, OutOfMemory>
    ensures { IfOk result (λ members. AreMembers p.now pieces members.items) }
{
    let mut members = reversed(alloc, p, pieces)?;
    members.sort_unstable();
    Ok(members)
}

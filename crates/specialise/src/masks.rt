//! Which blocks are reached, and which results stay.
ghost use Rattle.std.specs.Prelude.{◌≡◌, ◌+◌, ◌<◌, ◌≤◌, ◌^◌, ◌++◌, ◌&&◌, IfOk, OnOk, drop, length, map, take};
ghost use Rattle.ir_syntax.specs.Results.{block_results};
ghost use Rattle.fold_facts.specs.OfFunction.{IsAssignmentIn, results_in};
ghost use Rattle.interface.specs.Summaries.{reached as reached_in};
ghost use Rattle.specialise.specs.Leaving.{is_open as open_by, kept as kept_in};

use fold_facts::{Assignment, Fact};
use interface::{Mask, result_count};
use ir_syntax::Block;
use ir_types::{Known, List, OutOfMemory};
use std::alloc::Global;

/// Which of the blocks are reached.
pub(crate) fn reached_of(
    alloc: Global,
    a: &Assignment,
    blocks: &[Block],
) -> Result<Mask, OutOfMemory>
    requires of { IsAssignmentIn blocks.now a.now }
    ensures { IfOk result (λ mask. mask ≡ reached_in a.now blocks.now) }
{
    let mut flags = List::new(alloc);
    for place in 0..blocks.len() {
        flags.push(a.is_reached(place))?;
    }
    Mask::of(alloc, flags)
}

/// Whether the fact is no one value.
fn is_open(fact: Fact) -> bool
    ensures { result ≡ open_by fact }
{
    match fact {
        Fact::Unreached => true,
        Fact::One(Known::Unknown) => true,
        Fact::One(Known::Num(_)) => false,
        Fact::One(Known::Null) => false,
        Fact::Varying => true,
    }
}

/// Whether a result of a block stays, which is reached or not.
fn stays(is_reached: bool, fact: Fact) -> bool
    ensures { result ≡ (is_reached && open_by fact) }
{
    if is_reached {
        return is_open(fact);
    }
    false
}

/// Adds the flags of so many results that are next, whose block is reached or not.
fn add_flags(
    flags: &mut List<bool>,
    is_reached: bool,
    facts: &[Fact],
    count: usize,
) -> Result<(), OutOfMemory>
    requires { length flags.old + count ≤ length facts.now }
    ensures { OnOk result (flags.new ≡ flags.old ++ map (λ fact. is_reached && open_by fact) (take count (drop (length flags.old) facts.now))) }
{
    let first = flags.len();
    for fact in &facts[first..first + count] {
        flags.push(stays(is_reached, *fact))?;
    }
    Ok(())
}

/// Which results stay: those of reached blocks that have no known value.
pub(crate) fn kept_of(
    alloc: Global,
    a: &Assignment,
    facts: &[Fact],
    blocks: &[Block],
) -> Result<Mask, OutOfMemory>
    requires of { IsAssignmentIn blocks.now a.now }
    requires few { length (results_in blocks.now) < 2 ^ 64 }
    requires facts { facts.now ≡ a.now.facts }
    ensures { IfOk result (λ mask. mask ≡ kept_in a.now blocks.now) }
{
    let mut flags = List::new(alloc);
    for (place, block) in blocks.iter().enumerate() {
        add_flags(&mut flags, a.is_reached(place), facts, result_count(block))?;
    }
    Mask::of(alloc, flags)
}

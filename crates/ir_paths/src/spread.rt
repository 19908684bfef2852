//! Which blocks a path comes to past which others, for 64 others at once.
ghost use Rattle.std.specs.Prelude.{◌≡◌, false, length, map, replicate, IfOk, OnOk};
ghost use Rattle.ir_syntax.specs.Edges.{successors};
ghost use Rattle.ir_paths.specs.Spreading.{arrive as arrived, arrive_all as arrived_all, visit as visited, visit_all as visited_all};
ghost use Rattle.ir_paths.specs.Bypass.{AreBypassed};

use ir_syntax::{Block, Term};
use ir_types::OutOfMemory;
use std::alloc::Global;

/// For each block the bits past whose owners a path comes to it. `own` says which bits each block owns. `order` is where
/// to begin: the answer is the same for any.
pub(crate) fn bypassed(
    alloc: Global,
    blocks: &[Block],
    own: &[u64],
    order: &[usize],
) -> Result<Vec<u64>, OutOfMemory>
    requires { length own.now ≡ length blocks.now }
    ensures { IfOk result (λ words. AreBypassed blocks.now own.now words.items) }
{
    let mut words = vec![in alloc; 0u64; blocks.len()]?;
    let mut flags = vec![in alloc; false; blocks.len()]?;
    spread(alloc, &mut words, &mut flags, blocks, own, order)?;
    Ok(words)
}

// From words and flags that are clear: all bits begin at the first block, and go on until no block waits.
fn spread(
    alloc: Global,
    words: &mut [u64],
    flags: &mut [bool],
    blocks: &[Block],
    own: &[u64],
    order: &[usize],
) -> Result<(), OutOfMemory>
    requires words { words.old ≡ replicate (length blocks.now) 0 }
    requires flags { flags.old ≡ replicate (length blocks.now) false }
    requires own { length own.now ≡ length blocks.now }
    ensures { OnOk result (AreBypassed blocks.now own.now words.new) }
{
    let mut next = Vec::new(alloc);
    arrive(words, flags, &mut next, 0, u64::MAX)?;
    visit_all(words, flags, &mut next, blocks, own, order)?;
    while let Some(place) = next.pop() {
        visit(words, flags, &mut next, blocks, own, place)?;
    }
    Ok(())
}

fn visit_all(
    words: &mut [u64],
    flags: &mut [bool],
    next: &mut Vec<usize>,
    blocks: &[Block],
    own: &[u64],
    order: &[usize],
) -> Result<(), OutOfMemory>
    requires words { length words.old ≡ length blocks.now }
    requires flags { length flags.old ≡ length blocks.now }
    requires own { length own.now ≡ length blocks.now }
    ensures { OnOk result ((words.new, flags.new, next.new.items) ≡ visited_all blocks.now own.now order.now (words.old, flags.old, next.old.items)) }
{
    for place in order {
        visit(words, flags, next, blocks, own, *place)?;
    }
    Ok(())
}

// Where the block waits, its bits go on, but for those that it owns.
fn visit(
    words: &mut [u64],
    flags: &mut [bool],
    next: &mut Vec<usize>,
    blocks: &[Block],
    own: &[u64],
    place: usize,
) -> Result<(), OutOfMemory>
    requires words { length words.old ≡ length blocks.now }
    requires flags { length flags.old ≡ length blocks.now }
    requires own { length own.now ≡ length blocks.now }
    ensures { OnOk result ((words.new, flags.new, next.new.items) ≡ visited blocks.now own.now place (words.old, flags.old, next.old.items)) }
{
    if place >= flags.len() || !flags[place] {
        return Ok(());
    }
    flags[place] = false;
    let bits = words[place] & !own[place];
    leave(words, flags, next, &blocks[place].term, bits)
}

fn leave(
    words: &mut [u64],
    flags: &mut [bool],
    next: &mut Vec<usize>,
    term: &Term,
    bits: u64,
) -> Result<(), OutOfMemory>
    requires { length words.old ≡ length flags.old }
    ensures { OnOk result ((words.new, flags.new, next.new.items) ≡ arrived_all bits (successors term.now) (words.old, flags.old, next.old.items)) }
{
    for k in 0..term.successor_count() {
        match term.successor(k) {
            Some(to) => arrive(words, flags, next, to, bits)?,
            None => return Ok(()),
        }
    }
    Ok(())
}

fn arrive(
    words: &mut [u64],
    flags: &mut [bool],
    next: &mut Vec<usize>,
    place: usize,
    bits: u64,
) -> Result<(), OutOfMemory>
    requires { length words.old ≡ length flags.old }
    ensures { OnOk result ((words.new, flags.new, next.new.items) ≡ arrived bits place (words.old, flags.old, next.old.items)) }
{
    if place >= words.len() {
        return Ok(());
    }
    let word = words[place] | bits;
    if word != words[place] {
        words[place] = word;
        flags[place] = true;
        next.push(place)?;
    }
    Ok(())
}

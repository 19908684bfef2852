//! Types and entries of phis.
ghost use Rattle.std.specs.Prelude.{◌≡◌, ◌↔◌, ◌<◌, ◌+◌, ◌==◌, ℕ, IsTrue, false, length, count_by, slice_index, MatchOption};
ghost use Rattle.std.specs.List.{All, AllPairs, HoldsAt};
ghost use Rattle.ir_syntax.specs.Typed.{HasType};
ghost use Rattle.ir_check.specs.Incoming.{times};
ghost use Rattle.ir_check.specs.Scopes.{types_of};
ghost use Rattle.ir_check.specs.Suited.{entries_for, HasEdges, SuitsPhi};

use crate::constants::same_operand;
use crate::operands::has_type;
use crate::scope::Scope;
use ir_syntax::{Operand, Phi};
use ir_types::Scalar;

/// Counts how often each block stands among these.
fn count_blocks(counts: &mut [usize], blocks: &[usize])
    requires none { All (λ n. n ≡ 0) counts.old }
    requires there { All (λ block. block < length counts.old) blocks.now }
    ensures { (from : ℕ) → slice_index counts.new from ≡ times from blocks.now }
{
    for block in blocks {
        counts[*block] += 1;
    }
}

/// Takes each entry's block off the counts, unless one is counted less often than it has entries.
fn take_entries(counts: &mut [usize], entries: &[(Operand, usize)]) -> bool
    ensures taken { IsTrue result → (from : ℕ) → slice_index counts.new from + entries_for from entries.now ≡ slice_index counts.old from }
    ensures too_many { result ≡ false → (from : ℕ) × (slice_index counts.old from < entries_for from entries.now) }
{
    for entry in entries {
        let from = entry.1;
        if from >= counts.len() || counts[from] == 0 {
            return false;
        }
        counts[from] -= 1;
    }
    true
}

/// Whether none of these blocks is counted.
fn are_uncounted(counts: &[usize], blocks: &[usize]) -> bool
    requires { All (λ block. block < length counts.now) blocks.now }
    ensures { IsTrue result ↔ All (λ block. slice_index counts.now block ≡ 0) blocks.now }
{
    for block in blocks {
        if counts[*block] != 0 {
            return false;
        }
    }
    true
}

/// Whether the entries name just these blocks, each as often as it stands among them. Where they do,
/// the counts are left at zero.
fn has_edges(counts: &mut [usize], blocks: &[usize], entries: &[(Operand, usize)]) -> bool
    requires none { All (λ n. n ≡ 0) counts.old }
    requires there { All (λ block. block < length counts.old) blocks.now }
    ensures edges { IsTrue result ↔ HasEdges blocks.now entries.now }
    ensures none { IsTrue result → All (λ n. n ≡ 0) counts.new }
{
    count_blocks(counts, blocks);
    if !take_entries(counts, entries) {
        return false;
    }
    are_uncounted(counts, blocks)
}

/// The place of the first entry for a block, where it stands before a place. For each block that has
/// an entry before it, `firsts` has the place of the first one.
fn first_entry(
    firsts: &[usize],
    entries: &[(Operand, usize)],
    before: usize,
    from: usize,
) -> Option<usize>
    requires there { from < length firsts.now }
    requires within { before < length entries.now }
    ensures { MatchOption result
        (slice_index firsts.now from < before → HoldsAt (λ entry. entry.1 ≡ from) entries.now (slice_index firsts.now from) → ⊥)
        (λ first. (first ≡ slice_index firsts.now from) × (first < before) × HoldsAt (λ entry. entry.1 ≡ from) entries.now first) }
{
    let first = firsts[from];
    if first < before && entries[first].1 == from {
        Some(first)
    } else {
        None
    }
}

/// Whether entries for one block are equal. What `firsts` has before doesn't matter.
fn agree(firsts: &mut [usize], entries: &[(Operand, usize)]) -> bool
    requires { All (λ entry. entry.1 < length firsts.old) entries.now }
    ensures { IsTrue result ↔ AllPairs (λ a b. a.1 ≡ b.1 → a.0 ≡ b.0) entries.now }
{
    for (i, entry) in entries.iter().enumerate() {
        match first_entry(firsts, entries, i, entry.1) {
            Some(first) => {
                if !same_operand(&entries[first].0, &entry.0) {
                    return false;
                }
            }
            None => firsts[entry.1] = i,
        }
    }
    true
}

/// Whether each entry has the phi's type.
fn have_type(scope: &Scope, ty: Scalar, entries: &[(Operand, usize)]) -> bool
    ensures { IsTrue result ↔ All (λ entry. HasType (types_of scope.now) ty entry.0) entries.now }
{
    entries.iter().all(|entry| has_type(scope, ty, &entry.0))
}

/// Whether the phi suits a block that is entered from these blocks. Where it does, the counts are left
/// at zero.
fn suits_phi(
    scope: &Scope,
    counts: &mut [usize],
    firsts: &mut [usize],
    blocks: &[usize],
    phi: &Phi,
) -> bool
    requires none { All (λ n. n ≡ 0) counts.old }
    requires there { All (λ block. block < length counts.old) blocks.now }
    requires as_many { length firsts.old ≡ length counts.old }
    ensures suits { IsTrue result ↔ SuitsPhi (types_of scope.now) blocks.now phi.now }
    ensures none { IsTrue result → All (λ n. n ≡ 0) counts.new }
{
    let entries = phi.entries.as_slice();
    if !has_edges(counts, blocks, entries) {
        return false;
    }
    agree(firsts, entries) && have_type(scope, phi.ty, entries)
}

/// Whether each phi suits a block that is entered from these blocks. Where they do, the counts are
/// left at zero.
pub fn suit_phis(
    scope: &Scope,
    counts: &mut [usize],
    firsts: &mut [usize],
    blocks: &[usize],
    phis: &[Phi],
) -> bool
    requires none { All (λ n. n ≡ 0) counts.old }
    requires there { All (λ block. block < length counts.old) blocks.now }
    requires as_many { length firsts.old ≡ length counts.old }
    ensures suit { IsTrue result ↔ All (SuitsPhi (types_of scope.now) blocks.now) phis.now }
    ensures none { IsTrue result → All (λ n. n ≡ 0) counts.new }
{
    for phi in phis {
        if !suits_phi(scope, counts, firsts, blocks, phi) {
            return false;
        }
    }
    true
}

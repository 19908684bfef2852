//! Far uses, the definers of 64 at once.
ghost use Rattle.std.specs.Prelude.{◌≡◌, ◌≢◌, ◌<◌, ◌≤◌, ◌^◌, ◌==◌, ℕ, All, length, take, replicate, slice_index, not, bit_and, IfOk, IfSome, MatchOption, MatchBool};
ghost use Rattle.std.specs.List.{list_any};
ghost use Rattle.std.specs.List.Sorted.{IsPermutation};
ghost use Rattle.ir_paths.specs.Bypass.{IsPassed, IsWithin, AreSingle};

use crate::far::Far;
use crate::order::visit_order;
use crate::spread::bypassed;
use ir_syntax::Block;
use ir_types::OutOfMemory;
use std::alloc::Global;

/// Whether each path to a far use has visited its definer before, for all far uses.
pub(crate) fn all_passed(
    alloc: Global,
    blocks: &[Block],
    far: Vec<Far>,
) -> Result<bool, OutOfMemory>
    requires { All (IsWithin (length blocks.now)) far.items }
    ensures { IfOk result (λ passed. MatchBool passed (All (IsPassed blocks.now) far.items) (All (IsPassed blocks.now) far.items → ⊥)) }
{
    if far.is_empty() {
        return Ok(true);
    }
    let order = visit_order(alloc, blocks)?;
    let far = by_definer(far)?;
    let mut rest = far.as_slice();
    while !rest.is_empty() {
        let passed = first_passed(alloc, blocks, order.as_slice(), rest)?;
        match passed {
            Some(taken) => rest = rest.split_at(taken).1,
            None => return Ok(false),
        }
    }
    Ok(true)
}

// Far uses of one definer come together, so that a batch has many. Nothing else rests on it.
fn by_definer(mut far: Vec<Far>) -> Result<Vec<Far>, OutOfMemory>
    ensures { IfOk result (λ sorted. IsPermutation far.items sorted.items) }
{
    far.sort_by_key(|asked| asked.definer)?;
    Ok(far)
}

// How many of the first far uses were asked, those of 64 definers at most, where all are passed.
fn first_passed(
    alloc: Global,
    blocks: &[Block],
    order: &[usize],
    far: &[Far],
) -> Result<Option<usize>, OutOfMemory>
    requires within { All (IsWithin (length blocks.now)) far.now }
    requires some { 0 < length far.now }
    ensures passed { IfOk result (λ taken. MatchOption taken (All (IsPassed blocks.now) far.now → ⊥) (λ n. All (IsPassed blocks.now) (take n far.now))) }
    ensures taken { IfOk result (λ taken. IfSome taken (λ n. (0 < n) × (n ≤ length far.now))) }
{
    let mut own = vec![in alloc; 0u64; blocks.len()]?;
    let taken = share_bits(&mut own, far);
    let words = bypassed(alloc, blocks, own.as_slice(), order)?;
    if any_bypassed(own.as_slice(), words.as_slice(), &far[..taken]) {
        return Ok(None);
    }
    Ok(Some(taken))
}

// Gives each definer of the first far uses a bit of its own, as far as 64 bits go. Gives the number of those far uses.
fn share_bits(own: &mut [u64], far: &[Far]) -> usize
    requires clear { own.old ≡ replicate (length own.old) 0 }
    requires within { All (λ u. u.definer < length own.old) far.now }
    requires some { 0 < length far.now }
    ensures taken { (0 < result) × (result ≤ length far.now) }
    ensures owned { All (λ u. slice_index own.new u.definer ≢ 0) (take result far.now) }
    ensures single { AreSingle own.new }
    ensures small { (place : ℕ) → slice_index own.new place < 2 ^ 64 }
{
    let mut used = 0u32;
    for (at, asked) in far.iter().enumerate() {
        if own[asked.definer] == 0 {
            if used == 64 {
                return at;
            }
            own[asked.definer] = 1 << used;
            used += 1;
        }
    }
    far.len()
}

// Whether a far use is bypassed: whether its block has a bit that its definer owns.
fn any_bypassed(own: &[u64], words: &[u64], far: &[Far]) -> bool
    requires { All (λ u. (u.definer < length own.now) × (u.place < length words.now)) far.now }
    ensures { result ≡ list_any (λ u. not (bit_and (slice_index words.now u.place) (slice_index own.now u.definer) == 0)) far.now }
{
    for asked in far {
        if words[asked.place] & own[asked.definer] != 0 {
            return true;
        }
    }
    false
}

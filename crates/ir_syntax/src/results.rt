//! The results of a body, and how many instructions it has.
ghost use Rattle.std.specs.Prelude.{◌≡◌, ◌+◌, ◌-◌, ◌^◌, ◌<◌, ◌↔◌, Some, is_some, IsSome, MatchResult, length, min, slice_get};
ghost use Rattle.std.specs.List.{filter_map};
ghost use Rattle.ir_syntax.specs.Results.{result_type, block_results, results, count};

use crate::{Block, Body, Inst};
use ir_types::Scalar;

impl Inst {
    /// The type of the instruction's result. `None` comes exactly where it has none: of a store, and of a call of a
    /// function that returns `void`.
    pub fn result_type(&self) -> Option<Scalar>
        ensures { result ≡ result_type self.now }
    {
        match self {
            Inst::Bin { ty, .. } => Some(*ty),
            Inst::Icmp { .. } => Some(Scalar::I1),
            Inst::Select { ty, .. } => Some(*ty),
            Inst::Cast { to, .. } => Some(*to),
            Inst::Alloca { .. } => Some(Scalar::Ptr),
            Inst::Load { ty, .. } => Some(*ty),
            Inst::Store { .. } => None,
            Inst::Gep { .. } => Some(Scalar::Ptr),
            Inst::Call { fn_ty, .. } => fn_ty.returns,
        }
    }

    /// Whether the instruction has a result.
    pub fn has_result(&self) -> bool
        ensures { result ≡ is_some (result_type self.now) }
    {
        self.result_type().is_some()
    }
}

/// The type of the k-th result of the instructions, or how many are left to count after them.
fn inst_result(insts: &[Inst], k: usize) -> Result<Scalar, usize>
    ensures { MatchResult result (λ ty. slice_get (filter_map result_type insts.now) k ≡ Some ty) (λ left. left + length (filter_map result_type insts.now) ≡ k) }
{
    let mut left = k;
    for inst in insts {
        match inst.result_type() {
            Some(ty) => {
                if left == 0 {
                    return Ok(ty);
                }
                left -= 1;
            }
            None => {}
        }
    }
    Err(left)
}

/// The type of the k-th result of the block, or how many are left to count after it.
fn block_result(block: &Block, k: usize) -> Result<Scalar, usize>
    ensures { MatchResult result (λ ty. slice_get (block_results block.now) k ≡ Some ty) (λ left. left + length (block_results block.now) ≡ k) }
{
    match block.phis.get(k) {
        Some(phi) => Ok(phi.ty),
        None => inst_result(block.insts.as_slice(), k - block.phis.len()),
    }
}

impl Body {
    /// The number of phis, instructions and terminators, or 2^64 - 1 where there are more.
    pub fn count(&self) -> usize
        ensures { result ≡ min (count self.now) (2 ^ 64 - 1) }
    {
        let mut count = 0usize;
        for block in self.blocks.as_slice() {
            let inside = block.phis.len().saturating_add(block.insts.len());
            count = count.saturating_add(inside.saturating_add(1));
        }
        count
    }

    /// The type of the k-th result, counting from 0 phis and instructions that have one in the order
    /// of the text: `None` exactly where there is no such result.
    pub fn reg_type(&self, k: usize) -> Option<Scalar>
        ensures value { result ≡ slice_get (results self.now) k }
        ensures there { IsSome result ↔ (k < length (results self.now)) }
    {
        let mut left = k;
        for block in self.blocks.as_slice() {
            match block_result(block, left) {
                Ok(ty) => return Some(ty),
                Err(rest) => left = rest,
            }
        }
        None
    }
}

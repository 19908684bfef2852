//! Types of blocks and bodies.
ghost use Rattle.std.specs.Prelude.{◌≡◌, ◌↔◌, ◌<◌, IsTrue, IfOk, length};
ghost use Rattle.std.specs.List.{All};
ghost use Rattle.ir_syntax.specs.Typed.{TypedBody};
ghost use Rattle.ir_check.specs.Incoming.{AreIncoming};
ghost use Rattle.ir_check.specs.Scopes.{types_of};
ghost use Rattle.ir_check.specs.Suited.{SuitsBlock, AreTypedBlocks};

use crate::incoming::{Incoming, incoming_of};
use crate::insts::are_typed_insts;
use crate::phis::suit_phis;
use crate::scope::Scope;
use crate::terms::is_typed_term;
use ir_syntax::Block;
use ir_types::{OutOfMemory, Scalar};
use std::alloc::Global;

/// Whether the block is well typed where it is entered from these blocks. Where it is, the counts are
/// left at zero.
fn suits_block(
    alloc: Global,
    scope: &Scope,
    returns: Option<Scalar>,
    counts: &mut [usize],
    firsts: &mut [usize],
    from: &[usize],
    block: &Block,
) -> Result<bool, OutOfMemory>
    requires none { All (λ n. n ≡ 0) counts.old }
    requires there { All (λ pred. pred < length counts.old) from.now }
    requires as_many { length firsts.old ≡ length counts.old }
    ensures suits { IfOk result (λ suits. IsTrue suits ↔ SuitsBlock (types_of scope.now) returns from.now block.now) }
    ensures none { IfOk result (λ suits. IsTrue suits → All (λ n. n ≡ 0) counts.new) }
{
    if !suit_phis(scope, counts, firsts, from, block.phis.as_slice()) {
        return Ok(false);
    }
    let typed = is_typed_term(alloc, scope, returns, &block.term)?;
    Ok(typed && are_typed_insts(scope, block.insts.as_slice()))
}

/// Whether each block of a body with these edges is well typed. There is room for each of them, where
/// nothing is counted.
fn are_typed_blocks(
    alloc: Global,
    scope: &Scope,
    returns: Option<Scalar>,
    counts: &mut [usize],
    firsts: &mut [usize],
    incoming: &Incoming,
    blocks: &[Block],
) -> Result<bool, OutOfMemory>
    requires incoming { AreIncoming blocks.now incoming.now }
    requires none { All (λ n. n ≡ 0) counts.old }
    requires counts { length counts.old ≡ length blocks.now }
    requires firsts { length firsts.old ≡ length blocks.now }
    ensures { IfOk result (λ typed. IsTrue typed ↔ AreTypedBlocks (types_of scope.now) returns blocks.now) }
{
    for (place, block) in blocks.iter().enumerate() {
        let from = incoming.of(place);
        let suits = suits_block(alloc, scope, returns, counts, firsts, from, block)?;
        if !suits {
            return Ok(false);
        }
    }
    Ok(true)
}

/// Whether the body of a function with this return type is well typed.
pub fn is_typed_body(
    alloc: Global,
    scope: &Scope,
    returns: Option<Scalar>,
    blocks: &[Block],
) -> Result<bool, OutOfMemory>
    ensures { IfOk result (λ typed. IsTrue typed ↔ TypedBody (types_of scope.now) returns blocks.now) }
{
    let incoming = incoming_of(alloc, blocks)?;
    if !incoming.of(0).is_empty() {
        return Ok(false);
    }
    let mut counts = vec![in alloc; 0usize; blocks.len()]?;
    let mut firsts = vec![in alloc; 0usize; blocks.len()]?;
    are_typed_blocks(
        alloc,
        scope,
        returns,
        &mut counts,
        &mut firsts,
        &incoming,
        blocks,
    )
}

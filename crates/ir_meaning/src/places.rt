//! Bodies, blocks and instructions of a program, by their places.
ghost use Rattle.std.specs.Prelude.{◌≡◌, ◌+◌, ◌<◌, ◌^◌, IsSome, OnSome, Some, length, slice_get};
ghost use Rattle.std.specs.Option.{option_copied};
ghost use Rattle.ir_steps.specs.Calls as calls;
ghost use Rattle.ir_meaning.specs.Models.{block_in};

use ir_syntax::{Block, Body, Func, Inst, Item, Program, Sym};

/// The function that a symbol names.
#[tactic(auto, using(crate::proofs::Meaning::function_is_item))]
pub fn function_at(p: &Program, sym: Sym) -> &Func
    requires { IsSome (calls.function_at p.now sym) }
    ensures { calls.function_at p.now sym ≡ Some result.now }
{
    match &p.modules()[sym.module].items.as_slice()[sym.item] {
        Item::Var(_) => unreachable!(),
        Item::Func(func) => func,
    }
}

/// The body of the function that a symbol names.
#[tactic(auto, using(crate::proofs::Meaning::body_is_of_function))]
pub fn body_of(p: &Program, sym: Sym) -> &Body
    requires { IsSome (calls.body_of p.now sym) }
    ensures { calls.body_of p.now sym ≡ Some result.now }
{
    match &function_at(p, sym).body {
        Some(body) => body,
        None => unreachable!(),
    }
}

/// A block of a function.
#[tactic(auto, using(crate::proofs::Meaning::block_is_of_body))]
pub fn block_in(p: &Program, sym: Sym, block: usize) -> &Block
    requires { IsSome (block_in p.now sym block) }
    ensures { block_in p.now sym block ≡ Some result.now }
{
    &body_of(p, sym).blocks.as_slice()[block]
}

/// The instruction at a place of a block, where the terminator isn't there.
pub fn inst_at(block: &Block, place: usize) -> Option<&Inst>
    ensures value { option_copied result ≡ slice_get block.now.insts place }
    ensures within { OnSome (option_copied result) (place + 1 < 2 ^ 64) }
{
    let count = block.insts.len();
    if place < count {
        block.insts.get(place)
    } else {
        None
    }
}

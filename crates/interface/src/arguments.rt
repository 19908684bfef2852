//! What is known of arguments.
ghost use Rattle.std.specs.Prelude.{◌≡◌, ◌+◌, ◌<◌, ◌≤◌, ◌^◌, IfOk, length, map, take};
ghost use Rattle.ir_syntax.specs.Results.{block_results};
ghost use Rattle.fold_facts.specs.Operands.{const_fact};
ghost use Rattle.fold_facts.specs.OfFunction.{IsAssignmentIn, results_in};
ghost use Rattle.interface.specs.Summaries.{known_of as known_by, value_of as value_in};

use fold_facts::{Assignment, Fact};
use ir_syntax::{Arg, Block, Const, Operand};
use ir_types::{Known, List, OutOfMemory};
use std::alloc::Global;

fn value_of(fact: Fact) -> Known
    ensures { result ≡ value_in fact }
{
    match fact {
        Fact::Unreached => Known::Unknown,
        Fact::One(known) => known,
        Fact::Varying => Known::Unknown,
    }
}

fn value_of_const(constant: &Const) -> Known
    ensures { result ≡ value_in (const_fact constant.now) }
{
    match constant {
        Const::Int(number) => Known::Num(*number),
        Const::Null => Known::Null,
        Const::Addr(_, _) => Known::Unknown,
        Const::Undef => Known::Unknown,
        Const::Poison => Known::Unknown,
        Const::Zero => Known::Unknown,
        Const::Text(_) => Known::Unknown,
        Const::Many(_) => Known::Unknown,
    }
}

/// The one value that an operand has, where this is known of the parameters and of the results.
pub fn known_of(known: &[Known], facts: &[Fact], operand: &Operand) -> Known
    ensures { result ≡ known_by (record { known = known.now }) facts.now operand.now }
{
    match operand {
        Operand::Param(k) => match known.get(*k) {
            Some(Known::Num(number)) => Known::Num(*number),
            Some(Known::Null) => Known::Null,
            Some(Known::Unknown) => Known::Unknown,
            None => Known::Unknown,
        },
        Operand::Reg(k) => match facts.get(*k) {
            Some(fact) => value_of(*fact),
            None => Known::Unknown,
        },
        Operand::Const(constant) => value_of_const(constant),
    }
}

/// What is known of each of at most 32 arguments, where this is known of the parameters and of the results, in an array that is
/// filled up with `Unknown`.
pub fn known_of_args(known: &[Known], facts: &[Fact], args: &[Arg]) -> [Known; 32]
    requires few { length args.now ≤ 32 }
    ensures known { take (length args.now) result ≡ map (known_by (record { known = known.now }) facts.now) (map (λ arg. arg.value) args.now) }
    ensures long { length result ≡ 32 }
{
    let mut items = [Known::Unknown; 32];
    for (k, arg) in args.iter().enumerate() {
        items[k] = known_of(known, facts, &arg.value);
    }
    items
}

/// How many results a block has.
pub fn result_count(block: &Block) -> usize
    requires few { length (block_results block.now) < 2 ^ 64 }
    ensures { result ≡ length (block_results block.now) }
{
    let mut count = block.phis.len();
    for inst in block.insts.as_slice() {
        if inst.has_result() {
            count += 1;
        }
    }
    count
}

/// How many results blocks have.
fn result_counts(blocks: &[Block]) -> usize
    requires few { length (results_in blocks.now) < 2 ^ 64 }
    ensures { result ≡ length (results_in blocks.now) }
{
    let mut count = 0;
    for block in blocks {
        count += result_count(block);
    }
    count
}

/// The facts of an assignment of these blocks, by the numbers of the results. `OutOfMemory` says that the allocator refused
/// memory.
pub fn facts_of(alloc: Global, a: &Assignment, blocks: &[Block]) -> Result<List<Fact>, OutOfMemory>
    requires of { IsAssignmentIn blocks.now a.now }
    requires few { length (results_in blocks.now) < 2 ^ 64 }
    ensures { IfOk result (λ facts. facts ≡ a.now.facts) }
{
    let mut facts = List::new(alloc);
    for k in 0..result_counts(blocks) {
        facts.push(a.fact(k))?;
    }
    Ok(facts)
}

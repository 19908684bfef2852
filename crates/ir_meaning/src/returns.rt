//! Returns.
ghost use Rattle.std.specs.Prelude.{◌≡◌, ◌∷◌, IfOk, List, []};
ghost use Rattle.block_memory.specs.Blocks.{MemoryData};
ghost use Rattle.ir_steps.specs.Results.{state, went};
ghost use Rattle.ir_steps.specs.Returns as returns;
ghost use Rattle.ir_steps.specs.States as states;
ghost use Rattle.block_memory.specs.Answers.{Gives, IsMeant};
ghost use Rattle.ir_meaning.specs.Models.{frame_of};
ghost use Rattle.ir_meaning.specs.Mirrors.Outcomes.{IsStepped};
ghost use Rattle.ir_meaning.specs.Mirrors.Stacks.{point_of};

use crate::frame::Frame;
use crate::halt::Halt;
use crate::places::{block_in, inst_at};
use crate::showing::shown_value;
use crate::stack::Stack;
use block_memory::{Memory, Val};
use ir_steps::Stepped;
use ir_syntax::{Program, Sym, SymName};
use ir_types::OutOfMemory;
use std::alloc::Global;

/// Ends the blocks of these numbers.
fn end_all(memory: &mut Memory, numbers: &[u64])
    ensures { memory.new ≡ returns.end_all numbers.now memory.old }
{
    for number in numbers {
        memory.end(*number);
    }
}

/// A call that waits goes on behind its call, with what that has returned.
fn resume(p: &Program, frame: &mut Frame, returned: Option<Val<Sym>>)
    requires { (below : List states.Frame) (mem : MemoryData) → IsMeant (returns.resume (frame_of p.now frame.old) below mem returned (frame_of p.now frame.old).rest) }
    ensures { (below : List states.Frame) (mem : MemoryData) → returns.resume (frame_of p.now frame.old) below mem returned (frame_of p.now frame.old).rest ≡ Gives (went (frame_of p.now frame.new ∷ below) mem) }
{
    let block = block_in(p, frame.func(), frame.block());
    match inst_at(block, frame.place()) {
        Some(_) => match returned {
            Some(value) => frame.pass_with(value),
            None => frame.pass(),
        },
        None => unreachable!(),
    }
}

/// What the root has returned, by name.
#[tactic(auto, using(crate::proofs::Named::root_is_shown))]
fn root_value(
    alloc: Global,
    p: &Program,
    returned: Option<Val<Sym>>,
) -> Result<Option<Val<SymName>>, OutOfMemory>
    requires { (mem : MemoryData) → IsMeant (returns.root_returns p.now mem returned) }
    ensures { IfOk result (λ named. (mem : MemoryData) → returns.root_returns p.now mem returned ≡ Gives (Stepped.Returned named, state [] mem)) }
{
    match returned {
        None => Ok(None),
        Some(value) => {
            let named = shown_value(alloc, p, &value)?;
            Ok(Some(named))
        }
    }
}

/// Returns from the innermost call, whose blocks end.
pub fn give_back(
    alloc: Global,
    p: &Program,
    stack: &mut Stack,
    memory: &mut Memory,
    returned: Option<Val<Sym>>,
) -> Result<Stepped, Halt>
    requires meant { IsMeant (returns.returns p.now (point_of p.now stack.old memory.old) returned) }
    ensures { IsStepped p.now result stack.new memory.new memory.old (returns.returns p.now (point_of p.now stack.old memory.old) returned) }
{
    end_all(memory, stack.top.allocas());
    match stack.below.pop() {
        None => {
            let named = root_value(alloc, p, returned)?;
            Ok(Stepped::Returned(named))
        }
        Some(caller) => {
            stack.top = caller;
            resume(p, &mut stack.top, returned);
            Ok(Stepped::Went)
        }
    }
}

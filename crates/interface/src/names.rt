//! The calls of functions by their names, and what else instructions and blocks name.
ghost use Rattle.std.specs.Prelude.{◌≡◌, ◌++◌, None, Some, MatchOption, IfOk, map, flat_map};
ghost use Rattle.ir_syntax.specs.Callees.{inst_callee};
ghost use Rattle.ir_syntax.specs.Named.{operand_names, phi_names};
ghost use Rattle.interface.specs.Names.{inst_uses, inst_others, block_others};

use ir_syntax::{Arg, Block, Inst, Phi};
use ir_types::{List, OutOfMemory};

/// The place of the item that the instruction calls by its name, with the arguments. `None` comes of a call through another
/// operand, and of every other instruction.
pub fn call_of(inst: &Inst) -> Option<(usize, &[Arg])>
    ensures { MatchOption result (inst_callee inst.now ≡ None) (λ call. (inst_callee inst.now ≡ Some call.0) × (map (λ arg. arg.value) call.1.now ≡ inst_uses inst.now)) }
{
    match inst {
        Inst::Call { callee, args, .. } => match callee.written_callee() {
            Some(place) => Some((place, args.as_slice())),
            None => None,
        },
        Inst::Bin { .. } => None,
        Inst::Icmp { .. } => None,
        Inst::Select { .. } => None,
        Inst::Cast { .. } => None,
        Inst::Alloca { .. } => None,
        Inst::Load { .. } => None,
        Inst::Store { .. } => None,
        Inst::Gep { .. } => None,
    }
}

fn with_args(named: List<usize>, args: &[Arg]) -> Result<List<usize>, OutOfMemory>
    ensures { IfOk result (λ all. all ≡ named ++ flat_map operand_names (map (λ arg. arg.value) args.now)) }
{
    let mut named = named;
    for arg in args {
        named = arg.value.add_names(named)?;
    }
    Ok(named)
}

fn with_inst(named: List<usize>, inst: &Inst) -> Result<List<usize>, OutOfMemory>
    ensures { IfOk result (λ all. all ≡ named ++ inst_others inst.now) }
{
    match call_of(inst) {
        Some((_, args)) => with_args(named, args),
        None => inst.add_names(named),
    }
}

fn with_insts(named: List<usize>, insts: &[Inst]) -> Result<List<usize>, OutOfMemory>
    ensures { IfOk result (λ all. all ≡ named ++ flat_map inst_others insts.now) }
{
    let mut named = named;
    for inst in insts {
        named = with_inst(named, inst)?;
    }
    Ok(named)
}

fn with_phis(named: List<usize>, phis: &[Phi]) -> Result<List<usize>, OutOfMemory>
    ensures { IfOk result (λ all. all ≡ named ++ flat_map phi_names phis.now) }
{
    let mut named = named;
    for phi in phis {
        named = phi.add_names(named)?;
    }
    Ok(named)
}

/// The list with the items at its end that the block names otherwise than as the callees of calls, by their places, in the
/// order of the text and as often as they are named. `OutOfMemory` says that the allocator refused memory.
pub fn names_of_block(named: List<usize>, block: &Block) -> Result<List<usize>, OutOfMemory>
    ensures { IfOk result (λ all. all ≡ named ++ block_others block.now) }
{
    let named = with_phis(named, block.phis.as_slice())?;
    let named = with_insts(named, block.insts.as_slice())?;
    block.term.add_names(named)
}

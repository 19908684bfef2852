//! Bodies as they are written.
ghost use Rattle.std.specs.Prelude.{◌≡◌, All, IfOk, map};
ghost use Rattle.interface.specs.Names.{HasFewArgs};
ghost use Rattle.ir_syntax.specs.Mapped.{map_phi};
ghost use Rattle.winnowed_form.specs.Bodies.{written_operand, written_inst as inst_written, written_block as block_written, written_body as body_written};
ghost use Rattle.reach_prune.specs.Mirrors.Shown.{shown_setting};

use crate::calls::written_call;
use crate::constants::moved;
use crate::grounds::Grounds;
use crate::places::Places;
use interface::Mask;
use ir_syntax::{Block, Body, Inst, MapOperand, Operand, Phi};
use ir_types::{List, OutOfMemory};
use std::alloc::Global;

/// How a function of the module `home` is written: the new places of names, and which parameters stay.
#[derive(Drop)]
pub(crate) struct Setting<'a> {
    pub(crate) grounds: &'a Grounds<'a>,
    pub(crate) home: usize,
    pub(crate) places: &'a Places,
    pub(crate) stays: &'a Mask,
}

impl<'a> MapOperand for Setting<'a> {
    ghost maps = { λ w o. written_operand (shown_setting w) o };

    fn map(&self, alloc: Global, operand: &Operand) -> Result<Operand, OutOfMemory> {
        match operand {
            Operand::Param(k) => Ok(Operand::Param(self.stays.rank(*k))),
            Operand::Reg(k) => Ok(Operand::Reg(*k)),
            Operand::Const(constant) => { Ok(Operand::Const(moved(alloc, self.places, constant)?)) }
        }
    }
}

/// An instruction as it is written.
fn written_inst(alloc: Global, w: &Setting<'_>, inst: &Inst) -> Result<Inst, OutOfMemory>
    requires few { HasFewArgs inst.now }
    ensures { IfOk result (λ made. made ≡ inst_written (shown_setting w.now) inst.now) }
{
    match inst {
        Inst::Call {
            fn_ty,
            ret_ext,
            callee,
            args,
        } => match callee.written_callee() {
            Some(place) => written_call(alloc, w, fn_ty, *ret_ext, args.as_slice(), place),
            None => inst.mapped(alloc, w),
        },
        Inst::Bin { .. } => inst.mapped(alloc, w),
        Inst::Icmp { .. } => inst.mapped(alloc, w),
        Inst::Select { .. } => inst.mapped(alloc, w),
        Inst::Cast { .. } => inst.mapped(alloc, w),
        Inst::Alloca { .. } => inst.mapped(alloc, w),
        Inst::Load { .. } => inst.mapped(alloc, w),
        Inst::Store { .. } => inst.mapped(alloc, w),
        Inst::Gep { .. } => inst.mapped(alloc, w),
    }
}

fn written_phis(alloc: Global, w: &Setting<'_>, phis: &[Phi]) -> Result<List<Phi>, OutOfMemory>
    ensures { IfOk result (λ made. made ≡ map (map_phi (written_operand (shown_setting w.now))) phis.now) }
{
    let mut made = List::new(alloc);
    for phi in phis {
        made.push(phi.mapped(alloc, w)?)?;
    }
    Ok(made)
}

fn written_insts(alloc: Global, w: &Setting<'_>, insts: &[Inst]) -> Result<List<Inst>, OutOfMemory>
    requires few { All HasFewArgs insts.now }
    ensures { IfOk result (λ made. made ≡ map (inst_written (shown_setting w.now)) insts.now) }
{
    let mut made = List::new(alloc);
    for inst in insts {
        made.push(written_inst(alloc, w, inst)?)?;
    }
    Ok(made)
}

fn written_block(alloc: Global, w: &Setting<'_>, block: &Block) -> Result<Block, OutOfMemory>
    requires few { All HasFewArgs block.now.insts }
    ensures { IfOk result (λ made. made ≡ block_written (shown_setting w.now) block.now) }
{
    let phis = written_phis(alloc, w, block.phis.as_slice())?;
    let insts = written_insts(alloc, w, block.insts.as_slice())?;
    let term = block.term.mapped(alloc, w)?;
    Ok(Block { phis, insts, term })
}

/// A residual body as it is written.
pub(crate) fn written_body(alloc: Global, w: &Setting<'_>, body: &Body) -> Result<Body, OutOfMemory>
    requires few { All (λ block. All HasFewArgs block.insts) body.now.blocks }
    ensures { IfOk result (λ made. made ≡ body_written (shown_setting w.now) body.now) }
{
    let mut blocks = List::new(alloc);
    for block in body.blocks.as_slice() {
        blocks.push(written_block(alloc, w, block)?)?;
    }
    Ok(Body { blocks })
}

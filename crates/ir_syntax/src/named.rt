//! The items that constants, operands, instructions and bodies name.
ghost use Rattle.std.specs.Prelude.{◌≡◌, ◌++◌, IfOk, map};
ghost use Rattle.std.specs.List.{flat_map};
ghost use Rattle.ir_syntax.specs.Named.{names, operand_names, inst_names, phi_names, term_names, block_names, body_names, item_names};

use crate::{Arg, Block, Body, Const, Inst, Item, Operand, Phi, Term};
use ir_types::{OutOfMemory, Scalar};
use sqlite_items::Items as List;

/// The list with the items that a constant names at its end. It recurses as deep as the constant nests.
fn with_const(named: List<usize>, constant: &Const) -> Result<List<usize>, OutOfMemory>
    ensures { IfOk result (λ all. all ≡ named ++ names constant.now) }
{
    match constant {
        Const::Int(_) => Ok(named),
        Const::Null => Ok(named),
        Const::Addr(place, _) => {
            let mut named = named;
            named.push(*place)?;
            Ok(named)
        }
        Const::Undef => Ok(named),
        Const::Poison => Ok(named),
        Const::Zero => Ok(named),
        Const::Text(_) => Ok(named),
        Const::Many(parts) => {
            let mut named = named;
            for part in parts.as_slice() {
                named = with_const(named, part)?;
            }
            Ok(named)
        }
    }
}

impl Const {
    /// The list with the items that the constant names at its end, by their places, in the order of the text and as
    /// often as they are named. It recurses as deep as the constant nests. The error is want of memory.
    pub fn add_names(&self, named: List<usize>) -> Result<List<usize>, OutOfMemory>
        ensures { IfOk result (λ all. all ≡ named ++ names self.now) }
    {
        with_const(named, self)
    }
}

impl Operand {
    /// The list with the items that the operand names at its end, as `Const::add_names` adds them.
    pub fn add_names(&self, named: List<usize>) -> Result<List<usize>, OutOfMemory>
        ensures { IfOk result (λ all. all ≡ named ++ operand_names self.now) }
    {
        match self {
            Operand::Param(_) => Ok(named),
            Operand::Reg(_) => Ok(named),
            Operand::Const(constant) => constant.add_names(named),
        }
    }
}

fn with_indices(
    named: List<usize>,
    indices: &[(Scalar, Operand)],
) -> Result<List<usize>, OutOfMemory>
    ensures { IfOk result (λ all. all ≡ named ++ flat_map operand_names (map (λ index. index.1) indices.now)) }
{
    let mut named = named;
    for index in indices {
        named = index.1.add_names(named)?;
    }
    Ok(named)
}

fn with_args(named: List<usize>, args: &[Arg]) -> Result<List<usize>, OutOfMemory>
    ensures { IfOk result (λ all. all ≡ named ++ flat_map operand_names (map (λ arg. arg.value) args.now)) }
{
    let mut named = named;
    for arg in args {
        named = arg.value.add_names(named)?;
    }
    Ok(named)
}

impl Inst {
    /// The list with the items that the instruction names at its end, the callee of a call among them, as
    /// `Const::add_names` adds them.
    pub fn add_names(&self, named: List<usize>) -> Result<List<usize>, OutOfMemory>
        ensures { IfOk result (λ all. all ≡ named ++ inst_names self.now) }
    {
        match self {
            Inst::Bin { a, b, .. } => b.add_names(a.add_names(named)?),
            Inst::Icmp { a, b, .. } => b.add_names(a.add_names(named)?),
            Inst::Select { cond, a, b, .. } => { b.add_names(a.add_names(cond.add_names(named)?)?) }
            Inst::Cast { a, .. } => a.add_names(named),
            Inst::Alloca { .. } => Ok(named),
            Inst::Load { at, .. } => at.add_names(named),
            Inst::Store { value, at, .. } => at.add_names(value.add_names(named)?),
            Inst::Gep { base, indices, .. } => {
                with_indices(base.add_names(named)?, indices.as_slice())
            }
            Inst::Call { callee, args, .. } => {
                with_args(callee.add_names(named)?, args.as_slice())
            }
        }
    }
}

impl Phi {
    /// The list with the items that the phi names at its end, as `Const::add_names` adds them.
    pub fn add_names(&self, named: List<usize>) -> Result<List<usize>, OutOfMemory>
        ensures { IfOk result (λ all. all ≡ named ++ phi_names self.now) }
    {
        let mut named = named;
        for entry in self.entries.as_slice() {
            named = entry.0.add_names(named)?;
        }
        Ok(named)
    }
}

impl Term {
    /// The list with the items that the terminator names at its end, as `Const::add_names` adds them.
    pub fn add_names(&self, named: List<usize>) -> Result<List<usize>, OutOfMemory>
        ensures { IfOk result (λ all. all ≡ named ++ term_names self.now) }
    {
        match self {
            Term::RetVoid => Ok(named),
            Term::Ret(_, value) => value.add_names(named),
            Term::Br(_) => Ok(named),
            Term::CondBr(cond, _, _) => cond.add_names(named),
            Term::Switch { value, .. } => value.add_names(named),
            Term::Unreachable => Ok(named),
        }
    }
}

fn with_phis(named: List<usize>, phis: &[Phi]) -> Result<List<usize>, OutOfMemory>
    ensures { IfOk result (λ all. all ≡ named ++ flat_map phi_names phis.now) }
{
    let mut named = named;
    for phi in phis {
        named = phi.add_names(named)?;
    }
    Ok(named)
}

fn with_insts(named: List<usize>, insts: &[Inst]) -> Result<List<usize>, OutOfMemory>
    ensures { IfOk result (λ all. all ≡ named ++ flat_map inst_names insts.now) }
{
    let mut named = named;
    for inst in insts {
        named = inst.add_names(named)?;
    }
    Ok(named)
}

impl Block {
    /// The list with the items that the block names at its end, as `Const::add_names` adds them: those of its phis, of
    /// its other instructions and of its terminator.
    pub fn add_names(&self, named: List<usize>) -> Result<List<usize>, OutOfMemory>
        ensures { IfOk result (λ all. all ≡ named ++ block_names self.now) }
    {
        let named = with_phis(named, self.phis.as_slice())?;
        let named = with_insts(named, self.insts.as_slice())?;
        self.term.add_names(named)
    }
}

impl Body {
    /// The list with the items that the body names at its end, as `Const::add_names` adds them.
    pub fn add_names(&self, named: List<usize>) -> Result<List<usize>, OutOfMemory>
        ensures { IfOk result (λ all. all ≡ named ++ body_names self.now) }
    {
        let mut named = named;
        for block in self.blocks.as_slice() {
            named = block.add_names(named)?;
        }
        Ok(named)
    }
}

impl Item {
    /// The list with the items that the item names at its end, as `Const::add_names` adds them: those of a variable's
    /// initialiser or of a function's body. A declaration names none.
    pub fn add_names(&self, named: List<usize>) -> Result<List<usize>, OutOfMemory>
        ensures { IfOk result (λ all. all ≡ named ++ item_names self.now) }
    {
        match self {
            Item::Var(var) => match &var.init {
                Some(constant) => constant.add_names(named),
                None => Ok(named),
            },
            Item::Func(func) => match &func.body {
                Some(body) => body.add_names(named),
                None => Ok(named),
            },
        }
    }
}

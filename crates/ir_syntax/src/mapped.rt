//! Instructions, terminators and phis made again with each operand mapped.
ghost use Rattle.std.specs.Prelude.{◌≡◌, ◌++◌, IfOk, map};
ghost use Rattle.ir_syntax.specs.Mapped.{map_arg, map_operands, map_term, map_phi};

use crate::{Arg, Inst, Operand, Phi, Term};
use ir_types::{Copied, OutOfMemory, Scalar};
use sqlite_items::Items as List;
use std::alloc::Global;

/// Says what each operand becomes.
pub trait MapOperand {
    ghost use Rattle.ir_syntax.specs.declared.constant.Operand.{Operand};

    /// What an operand becomes.
    ghost maps: { Self → Operand → Operand };

    /// What the operand becomes. The error is want of memory.
    fn map(&self, alloc: Global, operand: &Operand) -> Result<Operand, OutOfMemory>
        ensures { IfOk result (λ made. made ≡ maps self.now operand.now) };
}

/// The indices with each operand mapped.
fn map_indices<M: MapOperand>(
    alloc: Global,
    mapping: &M,
    indices: &[(Scalar, Operand)],
) -> Result<List<(Scalar, Operand)>, OutOfMemory>
    ensures { IfOk result (λ made. made ≡ map (λ index. (index.0, M.maps mapping.now index.1)) indices.now) }
{
    let mut made = List::new(alloc);
    for index in indices {
        let operand = mapping.map(alloc, &index.1)?;
        made.push((index.0, operand))?;
    }
    Ok(made)
}

/// The arguments with each operand mapped.
fn map_args<M: MapOperand>(
    alloc: Global,
    mapping: &M,
    args: &[Arg],
) -> Result<List<Arg>, OutOfMemory>
    ensures { IfOk result (λ made. made ≡ map (map_arg (M.maps mapping.now)) args.now) }
{
    let mut made = List::new(alloc);
    for arg in args {
        let value = mapping.map(alloc, &arg.value)?;
        made.push(Arg {
            ty: arg.ty,
            ext: arg.ext,
            value,
        })?;
    }
    Ok(made)
}

impl Inst {
    /// The instruction with each operand mapped, and all else the same. It recurses as deep as its types nest.
    pub fn mapped<M: MapOperand>(&self, alloc: Global, mapping: &M) -> Result<Inst, OutOfMemory>
        ensures { IfOk result (λ made. made ≡ map_operands (M.maps mapping.now) self.now) }
    {
        match self {
            Inst::Bin {
                op,
                flags,
                ty,
                a,
                b,
            } => Ok(Inst::Bin {
                op: *op,
                flags: *flags,
                ty: *ty,
                a: mapping.map(alloc, a)?,
                b: mapping.map(alloc, b)?,
            }),
            Inst::Icmp { pred, ty, a, b } => Ok(Inst::Icmp {
                pred: *pred,
                ty: *ty,
                a: mapping.map(alloc, a)?,
                b: mapping.map(alloc, b)?,
            }),
            Inst::Select { ty, cond, a, b } => Ok(Inst::Select {
                ty: *ty,
                cond: mapping.map(alloc, cond)?,
                a: mapping.map(alloc, a)?,
                b: mapping.map(alloc, b)?,
            }),
            Inst::Cast {
                op,
                nneg,
                from,
                to,
                a,
            } => Ok(Inst::Cast {
                op: *op,
                nneg: *nneg,
                from: *from,
                to: *to,
                a: mapping.map(alloc, a)?,
            }),
            Inst::Alloca { ty, count, align } => Ok(Inst::Alloca {
                ty: ty.copied(alloc)?,
                count: *count,
                align: *align,
            }),
            Inst::Load { ty, at, align } => Ok(Inst::Load {
                ty: *ty,
                at: mapping.map(alloc, at)?,
                align: *align,
            }),
            Inst::Store {
                ty,
                value,
                at,
                align,
            } => Ok(Inst::Store {
                ty: *ty,
                value: mapping.map(alloc, value)?,
                at: mapping.map(alloc, at)?,
                align: *align,
            }),
            Inst::Gep {
                inbounds,
                ty,
                base,
                indices,
            } => Ok(Inst::Gep {
                inbounds: *inbounds,
                ty: ty.copied(alloc)?,
                base: mapping.map(alloc, base)?,
                indices: map_indices(alloc, mapping, indices.as_slice())?,
            }),
            Inst::Call {
                fn_ty,
                ret_ext,
                callee,
                args,
            } => Ok(Inst::Call {
                fn_ty: fn_ty.copied(alloc)?,
                ret_ext: *ret_ext,
                callee: mapping.map(alloc, callee)?,
                args: map_args(alloc, mapping, args.as_slice())?,
            }),
        }
    }
}

impl Term {
    /// The terminator with its operand mapped, and all else the same.
    pub fn mapped<M: MapOperand>(&self, alloc: Global, mapping: &M) -> Result<Term, OutOfMemory>
        ensures { IfOk result (λ made. made ≡ map_term (M.maps mapping.now) self.now) }
    {
        match self {
            Term::RetVoid => Ok(Term::RetVoid),
            Term::Ret(ty, value) => Ok(Term::Ret(*ty, mapping.map(alloc, value)?)),
            Term::Br(to) => Ok(Term::Br(*to)),
            Term::CondBr(cond, one, other) => {
                Ok(Term::CondBr(mapping.map(alloc, cond)?, *one, *other))
            }
            Term::Switch {
                ty,
                value,
                default,
                cases,
            } => Ok(Term::Switch {
                ty: *ty,
                value: mapping.map(alloc, value)?,
                default: *default,
                cases: cases.copied(alloc)?,
            }),
            Term::Unreachable => Ok(Term::Unreachable),
        }
    }
}

impl Phi {
    /// The phi with each operand mapped, and all else the same.
    pub fn mapped<M: MapOperand>(&self, alloc: Global, mapping: &M) -> Result<Phi, OutOfMemory>
        ensures { IfOk result (λ made. made ≡ map_phi (M.maps mapping.now) self.now) }
    {
        let mut entries = List::new(alloc);
        for entry in self.entries.as_slice() {
            let operand = mapping.map(alloc, &entry.0)?;
            entries.push((operand, entry.1))?;
        }
        Ok(Phi {
            ty: self.ty,
            entries,
        })
    }
}

//! Copies of modules and their parts.
ghost use Rattle.std.specs.Prelude.{◌≡◌, IfOk};

use crate::{
    Arg, Block, Body, Const, Func, Inst, Item, Linkage, Module, Operand, Param, Phi, Term, Var,
};
use ir_types::{Copied, OutOfMemory};
use sqlite_items::Items as List;
use std::alloc::Global;

impl Copied for Linkage {
    fn copied(&self, _alloc: Global) -> Result<Linkage, OutOfMemory> {
        Ok(*self)
    }
}

impl Copied for Param {
    fn copied(&self, _alloc: Global) -> Result<Param, OutOfMemory> {
        Ok(*self)
    }
}

/// A copy of a constant. It recurses as deep as the constant nests.
fn copied_const(constant: &Const, alloc: Global) -> Result<Const, OutOfMemory>
    ensures { IfOk result (λ copy. copy ≡ constant.now) }
{
    match constant {
        Const::Int(number) => Ok(Const::Int(*number)),
        Const::Null => Ok(Const::Null),
        Const::Addr(item, offset) => Ok(Const::Addr(*item, *offset)),
        Const::Undef => Ok(Const::Undef),
        Const::Poison => Ok(Const::Poison),
        Const::Zero => Ok(Const::Zero),
        Const::Text(bytes) => Ok(Const::Text(bytes.copy(alloc)?)),
        Const::Many(parts) => {
            let mut copies = List::new(alloc);
            for part in parts.as_slice() {
                copies.push(copied_const(part, alloc)?)?;
            }
            Ok(Const::Many(copies))
        }
    }
}

impl Copied for Const {
    fn copied(&self, alloc: Global) -> Result<Const, OutOfMemory> {
        copied_const(self, alloc)
    }
}

impl Copied for Operand {
    fn copied(&self, alloc: Global) -> Result<Operand, OutOfMemory> {
        match self {
            Operand::Param(place) => Ok(Operand::Param(*place)),
            Operand::Reg(number) => Ok(Operand::Reg(*number)),
            Operand::Const(constant) => Ok(Operand::Const(constant.copied(alloc)?)),
        }
    }
}

impl Copied for Phi {
    fn copied(&self, alloc: Global) -> Result<Phi, OutOfMemory> {
        let entries = self.entries.copied(alloc)?;
        Ok(Phi {
            ty: self.ty,
            entries,
        })
    }
}

impl Copied for Arg {
    fn copied(&self, alloc: Global) -> Result<Arg, OutOfMemory> {
        let value = self.value.copied(alloc)?;
        Ok(Arg {
            ty: self.ty,
            ext: self.ext,
            value,
        })
    }
}

impl Copied for Term {
    fn copied(&self, alloc: Global) -> Result<Term, OutOfMemory> {
        match self {
            Term::RetVoid => Ok(Term::RetVoid),
            Term::Ret(ty, value) => Ok(Term::Ret(*ty, value.copied(alloc)?)),
            Term::Br(to) => Ok(Term::Br(*to)),
            Term::CondBr(cond, yes, no) => Ok(Term::CondBr(cond.copied(alloc)?, *yes, *no)),
            Term::Switch {
                ty,
                value,
                default,
                cases,
            } => {
                let value = value.copied(alloc)?;
                let cases = cases.copied(alloc)?;
                Ok(Term::Switch {
                    ty: *ty,
                    value,
                    default: *default,
                    cases,
                })
            }
            Term::Unreachable => Ok(Term::Unreachable),
        }
    }
}

impl Copied for Inst {
    fn copied(&self, alloc: Global) -> Result<Inst, OutOfMemory> {
        match self {
            Inst::Bin {
                op,
                flags,
                ty,
                a,
                b,
            } => {
                let a = a.copied(alloc)?;
                let b = b.copied(alloc)?;
                Ok(Inst::Bin {
                    op: *op,
                    flags: *flags,
                    ty: *ty,
                    a,
                    b,
                })
            }
            Inst::Icmp { pred, ty, a, b } => {
                let a = a.copied(alloc)?;
                let b = b.copied(alloc)?;
                Ok(Inst::Icmp {
                    pred: *pred,
                    ty: *ty,
                    a,
                    b,
                })
            }
            Inst::Select { ty, cond, a, b } => {
                let cond = cond.copied(alloc)?;
                let a = a.copied(alloc)?;
                let b = b.copied(alloc)?;
                Ok(Inst::Select {
                    ty: *ty,
                    cond,
                    a,
                    b,
                })
            }
            Inst::Cast {
                op,
                nneg,
                from,
                to,
                a,
            } => {
                let a = a.copied(alloc)?;
                Ok(Inst::Cast {
                    op: *op,
                    nneg: *nneg,
                    from: *from,
                    to: *to,
                    a,
                })
            }
            Inst::Alloca { ty, count, align } => {
                let ty = ty.copied(alloc)?;
                Ok(Inst::Alloca {
                    ty,
                    count: *count,
                    align: *align,
                })
            }
            Inst::Load { ty, at, align } => {
                let at = at.copied(alloc)?;
                Ok(Inst::Load {
                    ty: *ty,
                    at,
                    align: *align,
                })
            }
            Inst::Store {
                ty,
                value,
                at,
                align,
            } => {
                let value = value.copied(alloc)?;
                let at = at.copied(alloc)?;
                Ok(Inst::Store {
                    ty: *ty,
                    value,
                    at,
                    align: *align,
                })
            }
            Inst::Gep {
                inbounds,
                ty,
                base,
                indices,
            } => {
                let ty = ty.copied(alloc)?;
                let base = base.copied(alloc)?;
                let indices = indices.copied(alloc)?;
                Ok(Inst::Gep {
                    inbounds: *inbounds,
                    ty,
                    base,
                    indices,
                })
            }
            Inst::Call {
                fn_ty,
                ret_ext,
                callee,
                args,
            } => {
                let fn_ty = fn_ty.copied(alloc)?;
                let callee = callee.copied(alloc)?;
                let args = args.copied(alloc)?;
                Ok(Inst::Call {
                    fn_ty,
                    ret_ext: *ret_ext,
                    callee,
                    args,
                })
            }
        }
    }
}

impl Copied for Block {
    fn copied(&self, alloc: Global) -> Result<Block, OutOfMemory> {
        let phis = self.phis.copied(alloc)?;
        let insts = self.insts.copied(alloc)?;
        let term = self.term.copied(alloc)?;
        Ok(Block { phis, insts, term })
    }
}

impl Copied for Body {
    fn copied(&self, alloc: Global) -> Result<Body, OutOfMemory> {
        let blocks = self.blocks.copied(alloc)?;
        Ok(Body { blocks })
    }
}

impl Copied for Var {
    fn copied(&self, alloc: Global) -> Result<Var, OutOfMemory> {
        let name = self.name.copy(alloc)?;
        let ty = self.ty.copied(alloc)?;
        let init = Copied::copied(&self.init, alloc)?;
        Ok(Var {
            name,
            linkage: self.linkage,
            constant: self.constant,
            ty,
            init,
            align: self.align,
        })
    }
}

impl Copied for Func {
    fn copied(&self, alloc: Global) -> Result<Func, OutOfMemory> {
        let name = self.name.copy(alloc)?;
        let params = self.params.copied(alloc)?;
        let body = Copied::copied(&self.body, alloc)?;
        Ok(Func {
            name,
            linkage: self.linkage,
            returns: self.returns,
            ret_ext: self.ret_ext,
            params,
            variadic: self.variadic,
            body,
        })
    }
}

impl Copied for Item {
    fn copied(&self, alloc: Global) -> Result<Item, OutOfMemory> {
        match self {
            Item::Var(var) => Ok(Item::Var(var.copied(alloc)?)),
            Item::Func(func) => Ok(Item::Func(func.copied(alloc)?)),
        }
    }
}

impl Copied for Module {
    fn copied(&self, alloc: Global) -> Result<Module, OutOfMemory> {
        let layout = Copied::copied(&self.layout, alloc)?;
        let triple = Copied::copied(&self.triple, alloc)?;
        let items = self.items.copied(alloc)?;
        Ok(Module {
            layout,
            triple,
            items,
        })
    }
}

impl Module {
    /// The same module again. It recurses as deep as its types and constants nest.
    pub fn copy(&self, alloc: Global) -> Result<Module, OutOfMemory>
        ensures { IfOk result (λ copy. copy ≡ self.now) }
    {
        self.copied(alloc)
    }
}

impl Func {
    /// The same function again. It recurses as deep as its types and constants nest.
    pub fn copy(&self, alloc: Global) -> Result<Func, OutOfMemory>
        ensures { IfOk result (λ copy. copy ≡ self.now) }
    {
        self.copied(alloc)
    }
}

impl Body {
    /// The same body again. It recurses as deep as its types and constants nest.
    pub fn copy(&self, alloc: Global) -> Result<Body, OutOfMemory>
        ensures { IfOk result (λ copy. copy ≡ self.now) }
    {
        self.copied(alloc)
    }
}

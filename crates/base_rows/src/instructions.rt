//! Instructions, terminators and what they are asked.
use crate::failed::Failed;
use crate::print_row;
use crate::swapped::Swapped;
use ir_syntax::{
    Arg, Block, Body, Const, Func, Inst, Item, Linkage, Module, Operand, Param, Phi, Term, Var,
};
use ir_types::{BinOp, Bytes, CastOp, Ext, Flags, FnType, List, OutOfMemory, Pred, Scalar, Ty};
use std::alloc::Global;

/// A call of item 0 with null, of type `void (ptr)`.
fn call(alloc: Global) -> Result<Inst, OutOfMemory> {
    let mut args = List::new(alloc);
    args.push(Arg {
        ty: Scalar::Ptr,
        ext: Ext::Plain,
        value: Operand::Const(Const::Null),
    })?;
    let mut params = List::new(alloc);
    params.push(Scalar::Ptr)?;
    Ok(Inst::Call {
        fn_ty: FnType {
            params,
            variadic: false,
            returns: None,
        },
        ret_ext: Ext::Plain,
        callee: Operand::Const(Const::Addr(0, 0)),
        args,
    })
}

/// `icmp`, `store`, a call that returns nothing, `alloca`, and `zext .. to i64`.
fn instructions(alloc: Global) -> Result<List<Inst>, OutOfMemory> {
    let mut insts = List::new(alloc);
    insts.push(Inst::Icmp {
        pred: Pred::Ult,
        ty: Scalar::I8,
        a: Operand::Reg(0),
        b: Operand::Const(Const::Int(7)),
    })?;
    insts.push(Inst::Store {
        ty: Scalar::I8,
        value: Operand::Reg(0),
        at: Operand::Param(0),
        align: None,
    })?;
    insts.push(call(alloc)?)?;
    insts.push(Inst::Alloca {
        ty: Ty::One(Scalar::I16),
        count: 1,
        align: Some(1),
    })?;
    insts.push(Inst::Cast {
        op: CastOp::Zext,
        nneg: false,
        from: Scalar::I8,
        to: Scalar::I64,
        a: Operand::Reg(0),
    })?;
    Ok(insts)
}

/// `add`, `select`, `load`, and a `getelementptr` of two indices.
fn others(alloc: Global) -> Result<List<Inst>, OutOfMemory> {
    let mut insts = List::new(alloc);
    insts.push(Inst::Bin {
        op: BinOp::Add,
        flags: Flags {
            nuw: true,
            nsw: false,
            exact: false,
            disjoint: false,
        },
        ty: Scalar::I32,
        a: Operand::Param(1),
        b: Operand::Const(Const::Undef),
    })?;
    insts.push(Inst::Select {
        ty: Scalar::Ptr,
        cond: Operand::Reg(1),
        a: Operand::Const(Const::Addr(1, 4)),
        b: Operand::Const(Const::Addr(0, 0)),
    })?;
    insts.push(Inst::Load {
        ty: Scalar::I32,
        at: Operand::Const(Const::Addr(1, 0)),
        align: Some(2),
    })?;
    insts.push(element(alloc)?)?;
    Ok(insts)
}

/// A `getelementptr` into `i8` from item 1, by a register and a number.
fn element(alloc: Global) -> Result<Inst, OutOfMemory> {
    let mut indices = List::new(alloc);
    indices.push((Scalar::I64, Operand::Reg(2)))?;
    indices.push((Scalar::I32, Operand::Const(Const::Int(3))))?;
    Ok(Inst::Gep {
        inbounds: true,
        ty: Ty::One(Scalar::I8),
        base: Operand::Const(Const::Addr(1, 0)),
        indices,
    })
}

/// A phi of item 0 from block 0.
fn phi(alloc: Global) -> Result<Phi, OutOfMemory> {
    let mut entries = List::new(alloc);
    entries.push((Operand::Const(Const::Int(1)), 0usize))?;
    Ok(Phi {
        ty: Scalar::I8,
        entries,
    })
}

/// Two blocks: a branch, and then a phi with instructions.
fn body(alloc: Global) -> Result<Body, OutOfMemory> {
    let mut phis = List::new(alloc);
    phis.push(phi(alloc)?)?;
    let mut blocks = List::new(alloc);
    blocks.push(Block {
        phis: List::new(alloc),
        insts: List::new(alloc),
        term: Term::Br(1),
    })?;
    blocks.push(Block {
        phis,
        insts: instructions(alloc)?,
        term: Term::RetVoid,
    })?;
    Ok(Body { blocks })
}

/// `void (ptr)`.
pub fn func(alloc: Global) -> Result<Func, OutOfMemory> {
    let mut params = List::new(alloc);
    params.push(Param {
        ty: Scalar::Ptr,
        ext: Ext::Plain,
    })?;
    Ok(Func {
        name: Bytes::from_slice(alloc, b"f")?,
        linkage: Linkage::Internal,
        returns: None,
        ret_ext: Ext::Plain,
        params,
        variadic: false,
        body: Some(body(alloc)?),
    })
}

/// The function, and a variable `{ i1 }`.
pub fn module(alloc: Global) -> Result<Module, OutOfMemory> {
    let mut parts = List::new(alloc);
    parts.push(Const::Int(1))?;
    let mut fields = List::new(alloc);
    fields.push(Ty::One(Scalar::I1))?;
    let mut items = List::new(alloc);
    items.push(Item::Func(func(alloc)?))?;
    items.push(Item::Var(Var {
        name: Bytes::from_slice(alloc, b"v")?,
        linkage: Linkage::Private,
        constant: true,
        ty: Ty::Struct(fields),
        init: Some(Const::Many(parts)),
        align: None,
    }))?;
    Ok(Module {
        layout: None,
        triple: Some(Bytes::from_slice(alloc, b"t")?),
        items,
    })
}

/// All terminators.
fn terminators(alloc: Global) -> Result<List<Term>, OutOfMemory> {
    let mut cases = List::new(alloc);
    cases.push((7u64, 4usize))?;
    cases.push((8u64, 5usize))?;
    let mut terms = List::new(alloc);
    terms.push(Term::RetVoid)?;
    terms.push(Term::Ret(Scalar::Ptr, Operand::Const(Const::Addr(1, 0))))?;
    terms.push(Term::Br(2))?;
    terms.push(Term::CondBr(Operand::Reg(1), 2, 3))?;
    terms.push(Term::Switch {
        ty: Scalar::I8,
        value: Operand::Param(0),
        default: 3,
        cases,
    })?;
    terms.push(Term::Unreachable)?;
    Ok(terms)
}

/// The names of the instructions, in order.
const FIRST: [&str; 5] = ["icmp", "store", "call", "alloca", "zext"];

/// The names of the others.
const OTHERS: [&str; 4] = ["add", "select", "load", "getelementptr"];

/// The names of the terminators.
const TERMS: [&str; 6] = ["ret void", "ret", "br", "br i1", "switch", "unreachable"];

pub fn print_rows<R: Print + AllocGlobal>(rt: &R) -> Result<(), Failed> {
    let body = body(rt.alloc())?.copy(rt.alloc())?;
    print_results(rt, &body)?;
    let first = instructions(rt.alloc())?;
    print_insts(rt, &FIRST, first.as_slice())?;
    let others = others(rt.alloc())?;
    print_insts(rt, &OTHERS, others.as_slice())?;
    let terms = terminators(rt.alloc())?;
    print_terms(rt, terms.as_slice())?;
    let phi = phi(rt.alloc())?;
    print_phi(rt, &phi)
}

fn print_results<R: Print>(rt: &R, body: &Body) -> Result<(), Failed> {
    print_row(rt, "phis, instructions and terminators", &body.count())?;
    for k in 0..5usize {
        let ty = body.reg_type(k);
        println!(rt; "type of result {k}: {ty:?}")?;
    }
    Ok(())
}

fn print_insts<R: Print + AllocGlobal>(
    rt: &R,
    names: &[&str],
    insts: &[Inst],
) -> Result<(), Failed> {
    for (name, inst) in names.iter().zip(insts) {
        print_inst(rt, name, inst)?;
        print_operands(rt, name, inst)?;
        print_mapped(rt, name, inst)?;
    }
    Ok(())
}

fn print_inst<R: Print>(rt: &R, name: &str, inst: &Inst) -> Result<(), Failed> {
    let ty = inst.result_type();
    let has_result = inst.has_result();
    let count = inst.operand_count();
    let callee = inst.written_callee();
    println!(rt; "{name}: {inst:?}")?;
    println!(rt; "{name}: result {has_result}, {ty:?}")?;
    println!(rt; "{name}: {count} operands, written callee {callee:?}")?;
    Ok(())
}

fn print_operands<R: Print>(rt: &R, name: &str, inst: &Inst) -> Result<(), Failed> {
    for k in 0..4usize {
        let operand = inst.operand(k);
        println!(rt; "{name}: operand {k}: {operand:?}")?;
    }
    Ok(())
}

fn print_mapped<R: Print + AllocGlobal>(rt: &R, name: &str, inst: &Inst) -> Result<(), Failed> {
    let named = inst.add_names(List::new(rt.alloc()))?;
    println!(rt; "{name}: names {named:?}")?;
    let mapped = inst.mapped(rt.alloc(), &Swapped)?;
    println!(rt; "{name}: mapped {mapped:?}")?;
    Ok(())
}

fn print_terms<R: Print + AllocGlobal>(rt: &R, terms: &[Term]) -> Result<(), Failed> {
    for (name, term) in TERMS.iter().zip(terms) {
        print_term(rt, name, term)?;
        print_mapped_term(rt, name, term)?;
    }
    Ok(())
}

fn print_term<R: Print>(rt: &R, name: &str, term: &Term) -> Result<(), Failed> {
    let operand = term.operand();
    let count = term.successor_count();
    println!(rt; "{name}: {term:?}")?;
    println!(rt; "{name}: operand {operand:?}, {count} successors")?;
    for k in 0..4usize {
        let successor = term.successor(k);
        println!(rt; "{name}: successor {k}: {successor:?}")?;
    }
    Ok(())
}

fn print_mapped_term<R: Print + AllocGlobal>(
    rt: &R,
    name: &str,
    term: &Term,
) -> Result<(), Failed> {
    let named = term.add_names(List::new(rt.alloc()))?;
    println!(rt; "{name}: names {named:?}")?;
    let mapped = term.mapped(rt.alloc(), &Swapped)?;
    println!(rt; "{name}: mapped {mapped:?}")?;
    Ok(())
}

fn print_phi<R: Print + AllocGlobal>(rt: &R, phi: &Phi) -> Result<(), Failed> {
    let named = phi.add_names(List::new(rt.alloc()))?;
    println!(rt; "phi: names {named:?}")?;
    let mapped = phi.mapped(rt.alloc(), &Swapped)?;
    println!(rt; "phi: mapped {mapped:?}")?;
    Ok(())
}

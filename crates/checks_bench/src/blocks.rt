//! What the bodies are built of.

use ir_syntax::{Block, Const, Inst, Operand, Phi, Term};
use ir_types::{BinOp, Flags, OutOfMemory, Scalar};
use sqlite_items::Items as List;
use std::alloc::Global;

/// The condition of each branch, a parameter of `i1`.
pub fn condition() -> Operand {
    Operand::Param(0)
}

/// What the first addition adds to, a parameter of `i32`.
pub fn given() -> Operand {
    Operand::Param(1)
}

/// A number as a constant.
pub fn number(n: u64) -> Operand {
    Operand::Const(Const::Int(n))
}

/// The register that is defined before the one of this number; for the first one the parameter.
pub fn before(register: usize) -> Operand {
    if register == 0 {
        given()
    } else {
        Operand::Reg(register - 1)
    }
}

/// An addition of `i32`.
pub fn sum(a: Operand, b: Operand) -> Inst {
    Inst::Bin {
        op: BinOp::Add,
        flags: Flags {
            nuw: false,
            nsw: false,
            exact: false,
            disjoint: false,
        },
        ty: Scalar::I32,
        a,
        b,
    }
}

/// A block of one addition.
pub fn adding(alloc: Global, a: Operand, b: Operand, term: Term) -> Result<Block, OutOfMemory> {
    let mut insts = List::new(alloc);
    insts.push(sum(a, b))?;
    Ok(Block {
        phis: List::new(alloc),
        insts,
        term,
    })
}

/// A block of phis alone.
pub fn joining(alloc: Global, phis: List<Phi>, term: Term) -> Block {
    Block {
        phis,
        insts: List::new(alloc),
        term,
    }
}

//! Bodies of functions.
use crate::Operand;
use ir_types::{BinOp, CastOp, Ext, Flags, FnType, Pred, Scalar, Ty};
use sqlite_items::Items as List;

/// A body: its blocks, the first of which is entered.
#[derive(Debug, Drop)]
pub struct Body {
    pub blocks: List<Block>,
}

/// A block: phis, other instructions, and one terminator.
#[derive(Debug, Drop)]
pub struct Block {
    pub phis: List<Phi>,
    pub insts: List<Inst>,
    pub term: Term,
}

/// A phi: for each incoming edge an operand and the block that the edge comes from.
#[derive(Debug, Drop)]
pub struct Phi {
    pub ty: Scalar,
    pub entries: List<(Operand, usize)>,
}

/// An argument of a call.
#[derive(Debug, Drop)]
pub struct Arg {
    pub ty: Scalar,
    pub ext: Ext,
    pub value: Operand,
}

/// An instruction other than a phi. `align` is the exponent of two.
#[derive(Debug, Drop)]
pub enum Inst {
    Bin {
        op: BinOp,
        flags: Flags,
        ty: Scalar,
        a: Operand,
        b: Operand,
    },
    Icmp {
        pred: Pred,
        ty: Scalar,
        a: Operand,
        b: Operand,
    },
    Select {
        ty: Scalar,
        cond: Operand,
        a: Operand,
        b: Operand,
    },
    Cast {
        op: CastOp,
        nneg: bool,
        from: Scalar,
        to: Scalar,
        a: Operand,
    },
    Alloca {
        ty: Ty,
        count: u64,
        align: Option<u8>,
    },
    Load {
        ty: Scalar,
        at: Operand,
        align: Option<u8>,
    },
    Store {
        ty: Scalar,
        value: Operand,
        at: Operand,
        align: Option<u8>,
    },
    Gep {
        inbounds: bool,
        ty: Ty,
        base: Operand,
        indices: List<(Scalar, Operand)>,
    },
    Call {
        fn_ty: FnType,
        ret_ext: Ext,
        callee: Operand,
        args: List<Arg>,
    },
}

/// A terminator. Blocks are named by their place in the body.
#[derive(Debug, Drop)]
pub enum Term {
    RetVoid,
    Ret(Scalar, Operand),
    Br(usize),
    CondBr(Operand, usize, usize),
    Switch {
        ty: Scalar,
        value: Operand,
        default: usize,
        cases: List<(u64, usize)>,
    },
    Unreachable,
}

//! The words of a row.
use ir_types::{BinOp, CastOp, Flags, Pred, Scalar};

const TYPES: [(&str, Scalar); 5] = [
    ("i1", Scalar::I1),
    ("i8", Scalar::I8),
    ("i16", Scalar::I16),
    ("i32", Scalar::I32),
    ("i64", Scalar::I64),
];

const OPERATIONS: [(&str, BinOp); 13] = [
    ("add", BinOp::Add),
    ("sub", BinOp::Sub),
    ("mul", BinOp::Mul),
    ("udiv", BinOp::Udiv),
    ("sdiv", BinOp::Sdiv),
    ("urem", BinOp::Urem),
    ("srem", BinOp::Srem),
    ("shl", BinOp::Shl),
    ("lshr", BinOp::Lshr),
    ("ashr", BinOp::Ashr),
    ("and", BinOp::And),
    ("or", BinOp::Or),
    ("xor", BinOp::Xor),
];

const PREDICATES: [(&str, Pred); 10] = [
    ("eq", Pred::Eq),
    ("ne", Pred::Ne),
    ("ugt", Pred::Ugt),
    ("uge", Pred::Uge),
    ("ult", Pred::Ult),
    ("ule", Pred::Ule),
    ("sgt", Pred::Sgt),
    ("sge", Pred::Sge),
    ("slt", Pred::Slt),
    ("sle", Pred::Sle),
];

const CASTS: [(&str, CastOp); 3] = [
    ("zext", CastOp::Zext),
    ("sext", CastOp::Sext),
    ("trunc", CastOp::Trunc),
];

pub fn type_of(word: &str) -> Option<Scalar> {
    for (name, ty) in TYPES {
        if name == word {
            return Some(ty);
        }
    }
    None
}

pub fn operation_of(word: &str) -> Option<BinOp> {
    for (name, op) in OPERATIONS {
        if name == word {
            return Some(op);
        }
    }
    None
}

pub fn predicate_of(word: &str) -> Option<Pred> {
    for (name, pred) in PREDICATES {
        if name == word {
            return Some(pred);
        }
    }
    None
}

pub fn cast_of(word: &str) -> Option<CastOp> {
    for (name, op) in CASTS {
        if name == word {
            return Some(op);
        }
    }
    None
}

/// The flags that a word joins by `+`; `-` joins none.
pub fn flags_of(word: &str) -> Flags {
    let mut flags = Flags {
        nuw: false,
        nsw: false,
        exact: false,
        disjoint: false,
    };
    for flag in word.split('+') {
        match flag {
            "nuw" => flags.nuw = true,
            "nsw" => flags.nsw = true,
            "exact" => flags.exact = true,
            "disjoint" => flags.disjoint = true,
            _ => {}
        }
    }
    flags
}

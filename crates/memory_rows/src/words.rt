//! The words of a call.
use ir_types::{Pred, Scalar};

const TYPES: [(&str, Scalar); 6] = [
    ("i1", Scalar::I1),
    ("i8", Scalar::I8),
    ("i16", Scalar::I16),
    ("i32", Scalar::I32),
    ("i64", Scalar::I64),
    ("ptr", Scalar::Ptr),
];

const PREDICATES: [(&str, Pred); 10] = [
    ("eq", Pred::Eq),
    ("ne", Pred::Ne),
    ("ugt", Pred::Ugt),
    ("uge", Pred::Uge),
    ("ult", Pred::Ult),
    ("ule", Pred::Ule),
    ("sgt", Pred::Sgt),
    ("sge", Pred::Sge),
    ("slt", Pred::Slt),
    ("sle", Pred::Sle),
];

const ALIGNMENTS: [(&str, u8); 8] = [
    ("1", 0),
    ("2", 1),
    ("4", 2),
    ("8", 3),
    ("16", 4),
    ("32", 5),
    ("4096", 12),
    ("4294967296", 32),
];

pub fn type_of(word: &str) -> Option<Scalar> {
    for (name, ty) in TYPES {
        if name == word {
            return Some(ty);
        }
    }
    None
}

pub fn predicate_of(word: &str) -> Option<Pred> {
    for (name, pred) in PREDICATES {
        if name == word {
            return Some(pred);
        }
    }
    None
}

/// The exponent of two of an alignment.
fn exponent_of(word: &str) -> Option<u8> {
    for (name, exponent) in ALIGNMENTS {
        if name == word {
            return Some(exponent);
        }
    }
    None
}

/// The exponent of two of the alignment that a type has by itself.
fn own_exponent(ty: Scalar) -> u8 {
    match ty {
        Scalar::I1 => 0,
        Scalar::I8 => 0,
        Scalar::I16 => 1,
        Scalar::I32 => 2,
        Scalar::I64 => 3,
        Scalar::Ptr => 3,
    }
}

/// The exponent of two of an alignment, or where no word is left of the type's own.
pub fn alignment_of(word: Option<&str>, ty: Scalar) -> Option<u8> {
    match word {
        Some(word) => exponent_of(word),
        None => Some(own_exponent(ty)),
    }
}

//! A row of the table, and what is answered to it.
use crate::words::{cast_of, flags_of, operation_of, predicate_of, type_of};
use int_ops::{Outcome, bin, cast, icmp};
use ir_types::{BinOp, CastOp, Flags, Pred, Scalar};

pub enum Row {
    Operation {
        op: BinOp,
        flags: Flags,
        ty: Scalar,
        a: u64,
        b: u64,
    },
    Comparison {
        pred: Pred,
        ty: Scalar,
        a: u64,
        b: u64,
    },
    Cast {
        op: CastOp,
        nneg: bool,
        from: Scalar,
        to: Scalar,
        a: u64,
    },
}

pub enum Answer {
    Gives(Outcome),
    Holds(bool),
}

/// The row that a line of five words spells.
pub fn row_of(line: &str) -> Option<Row> {
    let (first, rest) = line.split_once(' ')?;
    let (second, rest) = rest.split_once(' ')?;
    let (third, rest) = rest.split_once(' ')?;
    let (fourth, fifth) = rest.split_once(' ')?;
    let ty = type_of(third)?;
    if first == "icmp" {
        return Some(Row::Comparison {
            pred: predicate_of(second)?,
            ty,
            a: fourth.parse().ok()?,
            b: fifth.parse().ok()?,
        });
    }
    match cast_of(first) {
        Some(op) => Some(Row::Cast {
            op,
            nneg: second == "nneg",
            from: ty,
            to: type_of(fourth)?,
            a: fifth.parse().ok()?,
        }),
        None => Some(Row::Operation {
            op: operation_of(first)?,
            flags: flags_of(second),
            ty,
            a: fourth.parse().ok()?,
            b: fifth.parse().ok()?,
        }),
    }
}

pub fn answered(row: Row) -> Answer {
    match row {
        Row::Operation {
            op,
            flags,
            ty,
            a,
            b,
        } => Answer::Gives(bin(op, flags, ty, a, b)),
        Row::Comparison { pred, ty, a, b } => Answer::Holds(icmp(pred, ty, a, b)),
        Row::Cast {
            op,
            nneg,
            from,
            to,
            a,
        } => Answer::Gives(cast(op, nneg, from, to, a)),
    }
}

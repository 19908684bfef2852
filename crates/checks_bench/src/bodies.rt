//! The bodies of each shape. They are of a function with a parameter of `i1` and one of `i32`, which returns an `i32`.

use crate::blocks::{adding, before, condition, given, joining, number, sum};
use crate::shape::Shape;
use ir_syntax::{Block, Inst, Operand, Phi, Term};
use ir_types::{OutOfMemory, Scalar};
use sqlite_items::Items as List;
use std::alloc::Global;

/// The blocks of a body of this shape and size. `OutOfMemory` comes where memory is refused.
pub fn blocks_of(alloc: Global, shape: Shape, size: u32) -> Result<List<Block>, OutOfMemory> {
    match shape {
        Shape::Chain => chain(alloc, size),
        Shape::Ladder => ladder(alloc, size),
        Shape::Line => line(alloc, size),
        Shape::Switch => switch(alloc, size),
    }
}

/// So many blocks. Each adds 1 to the register of the one before and goes to the next; the last returns its register.
fn chain(alloc: Global, size: u32) -> Result<List<Block>, OutOfMemory> {
    let size = size as usize;
    let mut blocks = List::new(alloc);
    for at in 0..size {
        let term = if at + 1 < size {
            Term::Br(at + 1)
        } else {
            Term::Ret(Scalar::I32, Operand::Reg(at))
        };
        blocks.push(adding(alloc, before(at), number(1), term)?)?;
    }
    Ok(blocks)
}

/// So many joins. Before each a branch goes to two blocks, which add 1 and 2 to the register of the join before.
fn ladder(alloc: Global, size: u32) -> Result<List<Block>, OutOfMemory> {
    let mut blocks = List::new(alloc);
    for step in 0..size {
        let at = 3 * step as usize;
        let branch = Term::CondBr(condition(), at + 1, at + 2);
        blocks.push(joining(alloc, phis_at(alloc, at)?, branch))?;
        blocks.push(adding(alloc, before(at), number(1), Term::Br(at + 3))?)?;
        blocks.push(adding(alloc, before(at), number(2), Term::Br(at + 3))?)?;
    }
    let end = 3 * size as usize;
    let last = Term::Ret(Scalar::I32, before(end));
    blocks.push(joining(alloc, phis_at(alloc, end)?, last))?;
    Ok(blocks)
}

/// The phi of a join at a place of a ladder, for the two blocks before it. The first block has none.
fn phis_at(alloc: Global, at: usize) -> Result<List<Phi>, OutOfMemory> {
    let mut phis = List::new(alloc);
    if at >= 3 {
        let mut entries = List::new(alloc);
        entries.push((Operand::Reg(at - 3), at - 2))?;
        entries.push((Operand::Reg(at - 2), at - 1))?;
        phis.push(Phi {
            ty: Scalar::I32,
            entries,
        })?;
    }
    Ok(phis)
}

/// One block of so many additions, each of the register before and a parameter. It returns the last register.
fn line(alloc: Global, size: u32) -> Result<List<Block>, OutOfMemory> {
    let size = size as usize;
    let insts = additions(alloc, size)?;
    let mut blocks = List::new(alloc);
    blocks.push(Block {
        phis: List::new(alloc),
        insts,
        term: Term::Ret(Scalar::I32, before(size)),
    })?;
    Ok(blocks)
}

fn additions(alloc: Global, size: usize) -> Result<List<Inst>, OutOfMemory> {
    let mut insts = List::new(alloc);
    for at in 0..size {
        insts.push(sum(before(at), given()))?;
    }
    Ok(insts)
}

/// A switch of two cases fewer than the size, and the block that each of its edges goes to, which has a phi with an
/// entry for each edge.
fn switch(alloc: Global, size: u32) -> Result<List<Block>, OutOfMemory> {
    let count = size.saturating_sub(2);
    let term = Term::Switch {
        ty: Scalar::I32,
        value: given(),
        default: 1,
        cases: cases(alloc, count)?,
    };
    let mut phis = List::new(alloc);
    phis.push(Phi {
        ty: Scalar::I32,
        entries: entries(alloc, count)?,
    })?;
    let last = Term::Ret(Scalar::I32, Operand::Reg(0));
    let mut blocks = List::new(alloc);
    blocks.push(joining(alloc, List::new(alloc), term))?;
    blocks.push(joining(alloc, phis, last))?;
    Ok(blocks)
}

/// So many cases, all to block 1.
fn cases(alloc: Global, count: u32) -> Result<List<(u64, usize)>, OutOfMemory> {
    let mut cases = List::new(alloc);
    for case in 0..count {
        cases.push((u64::from(case), 1))?;
    }
    Ok(cases)
}

/// An entry for the default and for each of so many cases, all from block 0.
fn entries(alloc: Global, count: u32) -> Result<List<(Operand, usize)>, OutOfMemory> {
    let mut entries = List::new(alloc);
    for _ in 0..=count {
        entries.push((given(), 0))?;
    }
    Ok(entries)
}

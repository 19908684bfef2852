//! The blocks that each block of a body is entered from.
ghost use Rattle.std.specs.Prelude.{◌≡◌, [], ◌∷◌, ◌++◌, replicate, slice_index_or, slice_set, IfOk, OnOk};
ghost use Rattle.ir_syntax.specs.Edges.{successors};
ghost use Rattle.ir_check.specs.Incoming.{with_edges, with_blocks, AreIncoming};

use ir_syntax::{Block, Term};
use ir_types::OutOfMemory;
use std::alloc::Global;
use std::marker::Model;

/// For each block the blocks that its incoming edges come from, one for each edge. Contracts see the
/// list of these lists.
#[derive(Drop)]
pub struct Incoming {
    blocks: Vec<Vec<usize>>,
}

impl Model for Incoming {
    ghost use Rattle.std.specs.Prelude.{ℕ, List, map};

    ghost Value = { List (List ℕ) };

    ghost view = { λ incoming. map (λ block. block.items) incoming.blocks.items };
}

impl Incoming {
    /// So many blocks without edges.
    fn new(alloc: Global, len: usize) -> Result<Incoming, OutOfMemory>
        ensures { IfOk result (λ incoming. incoming ≡ replicate len []) }
    {
        let mut blocks = Vec::new(alloc);
        for _ in 0..len {
            blocks.push(Vec::new(alloc))?;
        }
        Ok(Incoming { blocks })
    }

    /// The blocks that the edges to a block come from.
    pub fn of(&self, to: usize) -> &[usize]
        ensures { result.now ≡ slice_index_or self.now to [] }
    {
        match self.blocks.get(to) {
            Some(from) => from.as_slice(),
            None => &[],
        }
    }

    /// Adds an edge. One to a block that isn't there is left out.
    fn add(&mut self, from: usize, to: usize) -> Result<(), OutOfMemory>
        ensures { OnOk result (self.new ≡ slice_set self.old to (slice_index_or self.old to [] ++ from ∷ [])) }
    {
        if to >= self.blocks.len() {
            return Ok(());
        }
        self.blocks[to].push(from)?;
        Ok(())
    }

    /// Adds the edges of a block's terminator.
    fn add_edges(&mut self, from: usize, term: &Term) -> Result<(), OutOfMemory>
        ensures { OnOk result (self.new ≡ with_edges self.old from (successors term.now)) }
    {
        match term {
            Term::RetVoid => {}
            Term::Ret(_, _) => {}
            Term::Br(to) => self.add(from, *to)?,
            Term::CondBr(_, one, other) => {
                self.add(from, *one)?;
                self.add(from, *other)?;
            }
            Term::Switch { default, cases, .. } => {
                self.add(from, *default)?;
                for case in cases.as_slice() {
                    self.add(from, case.1)?;
                }
            }
            Term::Unreachable => {}
        }
        Ok(())
    }
}

/// The edges of a body.
pub fn incoming_of(alloc: Global, blocks: &[Block]) -> Result<Incoming, OutOfMemory>
    ensures { IfOk result (λ incoming. AreIncoming blocks.now incoming) }
{
    let mut incoming = Incoming::new(alloc, blocks.len())?;
    for (from, block) in blocks.iter().enumerate() {
        incoming.add_edges(from, &block.term)?;
    }
    Ok(incoming)
}

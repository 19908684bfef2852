//! From lines to blocks.
ghost use Rattle.std.specs.Prelude.{◌≡◌, ◌∷◌, [], ◌++◌, ◌≤◌, List as ListOf, length, nat_le, min, sum, map, IfOk, IfSome, OnOk};
ghost use Rattle.ir_syntax.specs.Results.{block_count};
ghost use Rattle.ir_grammar.specs.Tokens.{seen};
ghost use Rattle.ir_scope.specs.Runs.{runs};
ghost use Rattle.ir_body.specs.Lines.{Line as LineValue, line_at};
ghost use Rattle.ir_body.specs.Bodies.{bounded, is_body};
ghost use Rattle.ir_operands.specs.Mirrors.Naming.{naming};
ghost use Rattle.ir_body.specs.Mirrors.Naming.{line_of};
ghost use Rattle.ir_body.specs.Mirrors.Shaped.{begins_line};
ghost use Rattle.ir_body.specs.Mirrors.Building.{built, as_blocks, lined_body_at};

use crate::counting::is_counted;
use crate::lines::{Line, begins_line, closes_brace, read_line};
use ir_grammar::Lexeme;
use ir_operands::{Names, after};
use ir_syntax::{Block, Body, Inst, Phi, Term};
use ir_types::{List, OutOfMemory};
use std::alloc::Global;
use std::mem::replace;

/// The most blocks of a body.
const MOST_BLOCKS: usize = 65535;

/// The most phis, instructions and terminators of a body.
const MOST_LINES: usize = 1048576;

/// Blocks that are done, and the phis and instructions of one that has begun.
#[derive(Drop)]
pub(crate) struct Builder {
    pub(crate) blocks: List<Block>,
    pub(crate) phis: List<Phi>,
    pub(crate) insts: List<Inst>,
}

impl Builder {
    /// No blocks. Takes no memory.
    fn new(alloc: Global) -> Builder
        ensures { result ≡ record { blocks = []; phis = []; insts = [] } }
    {
        Builder {
            blocks: List::new(alloc),
            phis: List::new(alloc),
            insts: List::new(alloc),
        }
    }

    /// Ends the block that has begun.
    fn close(&mut self, alloc: Global, term: Term) -> Result<(), OutOfMemory>
        ensures { OnOk result (self.new ≡ record { blocks = self.old.blocks ++ record { phis = self.old.phis; insts = self.old.insts; term = term } ∷ []; phis = []; insts = [] }) }
    {
        let phis = replace(&mut self.phis, List::new(alloc));
        let insts = replace(&mut self.insts, List::new(alloc));
        self.blocks.push(Block { phis, insts, term })?;
        Ok(())
    }

    /// Puts a line behind those before.
    fn put(&mut self, alloc: Global, line: Line) -> Result<(), OutOfMemory>
        ensures { OnOk result ((lines : ListOf LineValue) → built self.new lines ≡ built self.old (line_of line ∷ lines)) }
    {
        match line {
            Line::Labelled | Line::Dropped => {}
            Line::OfPhi(phi) => self.phis.push(phi)?,
            Line::OfInst(inst) => self.insts.push(inst)?,
            Line::Ends(term) => self.close(alloc, term)?,
        }
        Ok(())
    }
}

/// The blocks of the lines up to a closing brace.
fn blocks(
    alloc: Global,
    names: &Names,
    kept: &[Lexeme],
) -> Result<Option<(List<Block>, usize)>, OutOfMemory>
    ensures exact { IfOk result (λ found. found ≡ as_blocks (runs begins_line (line_at (naming names.now)) (seen kept.now))) }
    ensures within { IfOk result (λ found. IfSome found (λ f. f.1 ≤ length kept.now)) }
{
    let mut builder = Builder::new(alloc);
    let mut at = 0;
    'reading: loop {
        let rest = after(kept, at);
        if !begins_line(rest) {
            return Ok(Some((builder.blocks, at)));
        }
        match read_line(alloc, names, rest)? {
            Some((line, count)) => {
                builder.put(alloc, line)?;
                at += count;
            }
            None => return Ok(None),
        }
    }
}

/// How many phis, instructions and terminators a block has, or the largest number where these are more.
fn block_count(block: &Block) -> usize
    ensures { result ≡ min (block_count block.now) usize.MAX }
{
    block
        .phis
        .len()
        .saturating_add(block.insts.len())
        .saturating_add(1)
}

/// Whether blocks have at most so many phis, instructions and terminators.
fn are_few(blocks: &[Block]) -> bool
    ensures { result ≡ nat_le (sum (map block_count blocks.now)) 1048576 }
{
    let mut left = MOST_LINES;
    'counting: for block in blocks {
        let count = block_count(block);
        if left < count {
            return false;
        }
        left -= count;
    }
    true
}

/// Whether a body has blocks, and few enough blocks and lines.
fn is_body(body: &Body) -> bool
    ensures { result ≡ is_body body.now }
{
    let count = body.blocks.len();
    0 < count && count <= MOST_BLOCKS && are_few(body.blocks.as_slice())
}

/// The body of blocks, where they are few enough, and as many as in the lexemes that they are made of.
fn bounded(kept: &[Lexeme], blocks: List<Block>) -> Option<Body>
    ensures { result ≡ bounded (seen kept.now) (record { blocks = blocks }) }
{
    let body = Body { blocks };
    if is_body(&body) && is_counted(kept, &body) {
        Some(body)
    } else {
        None
    }
}

/// The body of lines up to a closing brace.
pub(crate) fn lined_body(
    alloc: Global,
    names: &Names,
    kept: &[Lexeme],
) -> Result<Option<Body>, OutOfMemory>
    ensures { IfOk result (λ found. found ≡ lined_body_at (naming names.now) (seen kept.now)) }
{
    let (blocks, count) = match blocks(alloc, names, kept)? {
        Some(found) => found,
        None => return Ok(None),
    };
    if closes_brace(after(kept, count)) {
        Ok(bounded(kept, blocks))
    } else {
        Ok(None)
    }
}

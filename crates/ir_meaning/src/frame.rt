//! Calls that haven't returned.
ghost use Rattle.std.specs.Prelude.{◌≡◌, ◌+◌, ◌<◌, ◌≤◌, ◌^◌, OnOk, length};
ghost use Rattle.ir_steps.specs.Branches as branches;
ghost use Rattle.ir_meaning.specs.Mirrors.Passing.{passed, passed_with, at_block, owning};

use crate::operands::value_again;
use block_memory::Val;
use ir_syntax::Sym;
use ir_types::OutOfMemory;
use std::marker::Model;

/// A call that hasn't returned: its function, its block, the place in the block of the next instruction (a call that waits
/// for another is at that call), its arguments, one slot for each result of its body, the number of the next result, and
/// the numbers of the blocks that its allocas made.
#[derive(Debug, Drop)]
pub struct Frame {
    pub func: Sym,
    pub block: usize,
    pub place: usize,
    pub args: Vec<Val<Sym>>,
    pub results: Vec<Option<Val<Sym>>>,
    pub next: usize,
    pub allocas: Vec<u64>,
}

impl Model for Frame {
    ghost use Rattle.ir_meaning.specs.Models.{FrameData};

    ghost Value = { FrameData };

    ghost view = { λ f. record { func = f.func; block = f.block; place = f.place; args = f.args.items; results = f.results.items; next = f.next; allocas = f.allocas.items } };
}

/// Sets slots from a number on.
fn set_from(results: &mut [Option<Val<Sym>>], first: usize, values: &[Val<Sym>])
    requires { first + length values.now ≤ length results.old }
    ensures { results.new ≡ branches.set_from first values.now results.old }
{
    let mut k = first;
    for value in values {
        results[k] = Some(value_again(value));
        k += 1;
    }
}

impl Frame {
    pub fn func(&self) -> Sym
        ensures { result ≡ self.now.func }
    {
        self.func
    }

    pub fn block(&self) -> usize
        ensures { result ≡ self.now.block }
    {
        self.block
    }

    pub fn place(&self) -> usize
        ensures { result ≡ self.now.place }
    {
        self.place
    }

    /// Goes to the head of a block, where so many phis have these values, the first of which is the result of this number.
    pub fn enter(&mut self, block: usize, first: usize, phis: usize, values: &[Val<Sym>])
        requires slots { first + phis ≤ length self.old.results }
        requires values { length values.now ≡ phis }
        ensures { self.new ≡ at_block self.old block first phis values.now }
    {
        set_from(self.results.as_mut_slice(), first, values);
        self.next = first + phis;
        self.block = block;
        self.place = 0;
    }

    /// Takes a block that an alloca made.
    pub fn own(&mut self, number: u64) -> Result<(), OutOfMemory>
        ensures { OnOk result (self.new ≡ owning self.old number) }
    {
        self.allocas.push(number)?;
        Ok(())
    }

    /// The numbers of the blocks that the call's allocas made.
    pub fn allocas(&self) -> &[u64]
        ensures { result.now ≡ self.now.allocas }
    {
        self.allocas.as_slice()
    }

    /// Goes on behind an instruction without a result.
    pub fn pass(&mut self)
        requires { self.old.place + 1 < 2 ^ 64 }
        ensures { self.new ≡ passed self.old }
    {
        self.place += 1;
    }

    /// Goes on behind an instruction with this result.
    pub fn pass_with(&mut self, value: Val<Sym>)
        requires place { self.old.place + 1 < 2 ^ 64 }
        requires slot { self.old.next < length self.old.results }
        ensures { self.new ≡ passed_with self.old value }
    {
        self.results[self.next] = Some(value);
        self.next += 1;
        self.place += 1;
    }
}

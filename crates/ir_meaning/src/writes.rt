//! Bytes that a reply writes.
ghost use Rattle.std.specs.Prelude.{◌≡◌, All, OnErr, true, slice_get};
ghost use Rattle.block_memory.specs.Answers.{Gives, changed};
ghost use Rattle.block_memory.specs.Blocks.{IsKnown, IsNamed, block_at};
ghost use Rattle.ir_steps.specs.Replies as replies;
ghost use Rattle.ir_meaning.specs.Mirrors.Opening as opening;
ghost use Rattle.ir_meaning.specs.Mirrors.Opening.{IsBytes};

use block_memory::{Memory, Name, Val};
use int_ops::Cause;
use ir_syntax::Sym;

/// Whether a byte may be written in a block with bytes: in one that is live and writable, within its size.
fn is_open_in_block(memory: &Memory, of: &Name<Sym>, at: u64) -> bool
    requires named { IsNamed memory.now of.now }
    requires bytes { IsBytes of.now }
    ensures { result ≡ opening.is_open_at (block_at memory.now of.now) at }
{
    let block = memory.extent(of);
    if block.live && at < block.size {
        memory.is_writable(of)
    } else {
        false
    }
}

/// Whether a byte may be written in the block under a name.
fn is_open(memory: &Memory, of: &Name<Sym>, at: u64) -> bool
    requires { IsNamed memory.now of.now }
    ensures { result ≡ opening.is_open memory.now of.now at }
{
    match of {
        Name::Var(_) => is_open_in_block(memory, of, at),
        Name::Func(_) => false,
        Name::Made(_) => is_open_in_block(memory, of, at),
    }
}

/// Whether a reply may write a byte: the place of an argument, an offset in its block, and the byte.
fn may_write(memory: &Memory, args: &[Val<Sym>], write: &(usize, u64, u8)) -> bool
    requires { All (IsKnown memory.now) args.now }
    ensures { result ≡ opening.may_write memory.now args.now write.now }
{
    match args.get(write.0) {
        None => false,
        Some(value) => match value {
            Val::Num(_) => false,
            Val::Null => false,
            Val::At(of, _) => is_open(memory, of, write.1),
            Val::Poison => false,
        },
    }
}

/// Whether a reply may write each of these bytes.
fn may_write_all(memory: &Memory, args: &[Val<Sym>], writes: &[(usize, u64, u8)]) -> bool
    requires { All (IsKnown memory.now) args.now }
    ensures { result ≡ opening.may_write_all memory.now args.now writes.now }
{
    for write in writes {
        if !may_write(memory, args, write) {
            return false;
        }
    }
    true
}

/// Writes a byte where it may be written.
fn write_one(memory: &mut Memory, args: &[Val<Sym>], write: &(usize, u64, u8))
    requires { opening.may_write memory.old args.now write.now ≡ true }
    ensures { replies.write_one memory.old write.now (slice_get args.now write.now.0) ≡ Gives memory.new }
{
    match &args[write.0] {
        Val::Num(_) => unreachable!(),
        Val::Null => unreachable!(),
        Val::At(of, _) => memory.write_byte(of, write.1, write.2),
        Val::Poison => unreachable!(),
    }
}

/// Writes each of these bytes, where they may be written.
fn write_each(memory: &mut Memory, args: &[Val<Sym>], writes: &[(usize, u64, u8)])
    requires { opening.may_write_all memory.old args.now writes.now ≡ true }
    ensures { replies.write_all args.now writes.now memory.old ≡ Gives memory.new }
{
    for write in writes {
        write_one(memory, args, write);
    }
}

/// Writes what a reply writes. All bytes are looked at before the first is written: where one isn't allowed nothing has
/// changed.
#[tactic(auto, using(crate::proofs::Opened::none_written))]
pub fn write_all(
    memory: &mut Memory,
    args: &[Val<Sym>],
    writes: &[(usize, u64, u8)],
) -> Result<(), Cause>
    requires { All (IsKnown memory.old) args.now }
    ensures answer { replies.write_all args.now writes.now memory.old ≡ changed memory.new result }
    ensures err { OnErr result (memory.new ≡ memory.old) }
{
    if !may_write_all(memory, args, writes) {
        return Err(Cause::BadReply);
    }
    write_each(memory, args, writes);
    Ok(())
}

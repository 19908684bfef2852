//! Calls as they are written.
use crate::names::{block_of, value_of};
use crate::words::{alignment_of, predicate_of, type_of};
use block_memory::{Name, Val};
use ir_syntax::{Program, Sym};
use ir_types::{Pred, Scalar};

/// A call that makes blocks or ends them.
#[derive(Debug, Drop)]
pub enum Block {
    Make { size: u32, heap: bool, zeroed: bool },
    End(u64),
    Free(Val<Sym>),
    Repeat { count: u64, size: u32 },
}

/// A call that reads or writes bytes. Alignments are exponents of two.
#[derive(Debug, Drop)]
pub enum Access {
    Load {
        ty: Scalar,
        at: Val<Sym>,
        align: u8,
    },
    Store {
        ty: Scalar,
        value: Val<Sym>,
        at: Val<Sym>,
        align: u8,
    },
    Fill {
        to: Val<Sym>,
        byte: Val<Sym>,
        len: u64,
    },
    Copy {
        to: Val<Sym>,
        from: Val<Sym>,
        len: u64,
        may_overlap: bool,
    },
    Write {
        of: Name<Sym>,
        at: u64,
        byte: u8,
    },
}

/// A call that changes nothing.
#[derive(Debug, Drop)]
pub enum Look {
    Compare {
        pred: Pred,
        a: Val<Sym>,
        b: Val<Sym>,
    },
    Extent(Name<Sym>),
    Show(Val<Sym>),
    Writable(Name<Sym>),
}

/// A call.
#[derive(Debug, Drop)]
pub enum Call {
    Block(Block),
    Access(Access),
    Look(Look),
}

fn make(words: &str) -> Option<Block> {
    let (size, rest) = words.split_once(' ').unwrap_or((words, ""));
    Some(Block::Make {
        size: size.parse().ok()?,
        heap: rest.split(' ').any(|word| word == "heap"),
        zeroed: rest.split(' ').any(|word| word == "zeroed"),
    })
}

/// The last value of a call, and the alignment behind it.
fn aligned(program: &Program, words: &str, ty: Scalar) -> Option<(Val<Sym>, u8)> {
    match words.split_once(' ') {
        Some((at, align)) => Some((value_of(program, at)?, alignment_of(Some(align), ty)?)),
        None => Some((value_of(program, words)?, alignment_of(None, ty)?)),
    }
}

fn load(program: &Program, words: &str) -> Option<Access> {
    let (ty, rest) = words.split_once(' ')?;
    let ty = type_of(ty)?;
    let (at, align) = aligned(program, rest, ty)?;
    Some(Access::Load { ty, at, align })
}

fn store(program: &Program, words: &str) -> Option<Access> {
    let (ty, rest) = words.split_once(' ')?;
    let (value, rest) = rest.split_once(' ')?;
    let ty = type_of(ty)?;
    let value = value_of(program, value)?;
    let (at, align) = aligned(program, rest, ty)?;
    Some(Access::Store {
        ty,
        value,
        at,
        align,
    })
}

fn fill(program: &Program, words: &str) -> Option<Access> {
    let (to, rest) = words.split_once(' ')?;
    let (byte, len) = rest.split_once(' ')?;
    Some(Access::Fill {
        to: value_of(program, to)?,
        byte: value_of(program, byte)?,
        len: len.parse().ok()?,
    })
}

fn copy(program: &Program, words: &str, may_overlap: bool) -> Option<Access> {
    let (to, rest) = words.split_once(' ')?;
    let (from, len) = rest.split_once(' ')?;
    Some(Access::Copy {
        to: value_of(program, to)?,
        from: value_of(program, from)?,
        len: len.parse().ok()?,
        may_overlap,
    })
}

fn compare(program: &Program, words: &str) -> Option<Look> {
    let (pred, rest) = words.split_once(' ')?;
    let (a, b) = rest.split_once(' ')?;
    Some(Look::Compare {
        pred: predicate_of(pred)?,
        a: value_of(program, a)?,
        b: value_of(program, b)?,
    })
}

fn write(program: &Program, words: &str) -> Option<Access> {
    let (of, rest) = words.split_once(' ')?;
    let (at, byte) = rest.split_once(' ')?;
    Some(Access::Write {
        of: block_of(program, of)?,
        at: at.parse().ok()?,
        byte: byte.parse().ok()?,
    })
}

fn repeat(words: &str) -> Option<Block> {
    let (count, size) = words.split_once(' ')?;
    Some(Block::Repeat {
        count: count.parse().ok()?,
        size: size.parse().ok()?,
    })
}

/// The call of a line that makes blocks or ends them.
fn block_call(program: &Program, word: &str, rest: &str) -> Option<Block> {
    match word {
        "make" => make(rest),
        "end" => Some(Block::End(rest.strip_prefix('b')?.parse().ok()?)),
        "free" => Some(Block::Free(value_of(program, rest)?)),
        "repeat" => repeat(rest),
        _ => None,
    }
}

/// The call of a line that reads or writes bytes.
fn access_call(program: &Program, word: &str, rest: &str) -> Option<Access> {
    match word {
        "load" => load(program, rest),
        "store" => store(program, rest),
        "fill" => fill(program, rest),
        "copy" => copy(program, rest, false),
        "move" => copy(program, rest, true),
        "write" => write(program, rest),
        _ => None,
    }
}

/// The call of a line that changes nothing.
fn look_call(program: &Program, word: &str, rest: &str) -> Option<Look> {
    match word {
        "compare" => compare(program, rest),
        "extent" => Some(Look::Extent(block_of(program, rest)?)),
        "show" => Some(Look::Show(value_of(program, rest)?)),
        "writable" => Some(Look::Writable(block_of(program, rest)?)),
        _ => None,
    }
}

/// The call that a line spells.
pub fn call_of(program: &Program, line: &str) -> Option<Call> {
    let (word, rest) = line.split_once(' ')?;
    if let Some(block) = block_call(program, word, rest) {
        return Some(Call::Block(block));
    }
    if let Some(access) = access_call(program, word, rest) {
        return Some(Call::Access(access));
    }
    Some(Call::Look(look_call(program, word, rest)?))
}

//! Answers as text.
use crate::answer::Answer;
use crate::names::item_name;
use block_memory::{BlockExtent, Name, Part, Val};
use ir_syntax::{Program, Sym};
use std::alloc::Global;

/// The name of the item at a symbol, if there is one.
fn symbol_name(program: &Program, symbol: Sym) -> Option<&str> {
    let module = program.modules().get(symbol.module)?;
    let item = module.items.as_slice().get(symbol.item)?;
    str::from_utf8(item_name(item)).ok()
}

fn symbol_text(alloc: Global, program: &Program, symbol: Sym) -> anyhow::Result<String> {
    match symbol_name(program, symbol) {
        Some(name) => Ok(format!(in alloc; "@{name}")?),
        None => Ok(String::from_str(alloc, "@")?),
    }
}

fn block_text(alloc: Global, program: &Program, of: &Name<Sym>) -> anyhow::Result<String> {
    match of {
        Name::Var(symbol) => symbol_text(alloc, program, *symbol),
        Name::Func(symbol) => symbol_text(alloc, program, *symbol),
        Name::Made(number) => Ok(format!(in alloc; "b{number}")?),
    }
}

/// An address: the block, and the offset where it isn't 0.
fn address_text(
    alloc: Global,
    program: &Program,
    of: &Name<Sym>,
    offset: i64,
) -> anyhow::Result<String> {
    let block = block_text(alloc, program, of)?;
    if offset == 0 {
        Ok(block)
    } else if offset < 0 {
        Ok(format!(in alloc; "{block}{offset}")?)
    } else {
        Ok(format!(in alloc; "{block}+{offset}")?)
    }
}

fn value_text(alloc: Global, program: &Program, value: &Val<Sym>) -> anyhow::Result<String> {
    match value {
        Val::Num(number) => Ok(format!(in alloc; "{number}")?),
        Val::Null => Ok(String::from_str(alloc, "null")?),
        Val::At(of, offset) => address_text(alloc, program, of, *offset),
        Val::Poison => Ok(String::from_str(alloc, "poison")?),
    }
}

fn part_text(alloc: Global, program: &Program, part: &Part<Sym>) -> anyhow::Result<String> {
    match part {
        Part::Poison => Ok(String::from_str(alloc, "--")?),
        Part::Num(byte) => Ok(format!(in alloc; "{byte:02x}")?),
        Part::Of(of, offset, place) => {
            let address = address_text(alloc, program, of, *offset)?;
            Ok(format!(in alloc; "{address}.{place}")?)
        }
    }
}

/// Bytes in brackets.
fn parts_text(alloc: Global, program: &Program, parts: &[Part<Sym>]) -> anyhow::Result<String> {
    let mut text = String::from_str(alloc, "[")?;
    for (place, part) in parts.iter().enumerate() {
        if place > 0 {
            text.push(' ')?;
        }
        text.push_str(part_text(alloc, program, part)?.as_str())?;
    }
    text.push(']')?;
    Ok(text)
}

fn extent_text(alloc: Global, extent: BlockExtent) -> anyhow::Result<String> {
    let size = extent.size;
    let word = if extent.live { "live" } else { "ended" };
    Ok(format!(in alloc; "{size} {word}")?)
}

pub fn answer_text(alloc: Global, program: &Program, answer: &Answer) -> anyhow::Result<String> {
    match answer {
        Answer::Done => Ok(String::from_str(alloc, "done")?),
        Answer::Made(number) => Ok(format!(in alloc; "b{number}")?),
        Answer::Value(value) => value_text(alloc, program, value),
        Answer::Undefined(cause) => Ok(format!(in alloc; "{cause:?}")?),
        Answer::Extent(extent) => extent_text(alloc, *extent),
        Answer::Bytes(parts) => parts_text(alloc, program, parts.as_slice()),
        Answer::Holds(holds) => Ok(format!(in alloc; "{holds}")?),
        Answer::Meaningless => Ok(String::from_str(alloc, "no meaning")?),
    }
}

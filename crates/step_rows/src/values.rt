//! Values, bytes of memory and calls outside, as text.
use block_memory::{Name, Part, Val};
use ir_meaning::{Shown, Wanted};
use ir_syntax::SymName;
use std::alloc::Global;

/// A name, where a byte that isn't a letter, a digit or a mark of ASCII is two digits behind a backslash.
pub(crate) fn name_text(alloc: Global, name: &[u8]) -> anyhow::Result<String> {
    let mut text = String::new(alloc);
    for byte in name {
        if byte.is_ascii_graphic() {
            text.push(char::from(*byte))?;
        } else {
            text.push_str(format!(in alloc; "\\{byte:02x}")?.as_str())?;
        }
    }
    Ok(text)
}

// A local symbol has the place of its module before its name.
fn symbol_text(alloc: Global, symbol: &SymName) -> anyhow::Result<String> {
    let name = name_text(alloc, symbol.name.as_slice())?;
    match symbol.home {
        Some(home) => Ok(format!(in alloc; "@{home}.{name}")?),
        None => Ok(format!(in alloc; "@{name}")?),
    }
}

fn block_text(alloc: Global, of: &Name<SymName>) -> anyhow::Result<String> {
    match of {
        Name::Var(symbol) => symbol_text(alloc, symbol),
        Name::Func(symbol) => symbol_text(alloc, symbol),
        Name::Made(number) => Ok(format!(in alloc; "#{number}")?),
    }
}

fn address_text(alloc: Global, of: &Name<SymName>, offset: i64) -> anyhow::Result<String> {
    let name = block_text(alloc, of)?;
    if offset == 0 {
        return Ok(name);
    }
    Ok(format!(in alloc; "{name}{offset:+}")?)
}

/// A number, `null`, an address or `poison`. An address is its block and its offset, if it has one: `@v`, `@f`, `#0+4`.
pub(crate) fn value_text(alloc: Global, value: &Val<SymName>) -> anyhow::Result<String> {
    match value {
        Val::Num(number) => Ok(format!(in alloc; "{number}")?),
        Val::Null => Ok(String::from_str(alloc, "null")?),
        Val::At(of, offset) => address_text(alloc, of, *offset),
        Val::Poison => Ok(String::from_str(alloc, "poison")?),
    }
}

// Two digits, `??` for poison, or the address with the number of its byte.
fn part_text(alloc: Global, part: &Part<SymName>) -> anyhow::Result<String> {
    match part {
        Part::Poison => Ok(String::from_str(alloc, "??")?),
        Part::Num(byte) => Ok(format!(in alloc; "{byte:02x}")?),
        Part::Of(of, offset, place) => {
            let address = address_text(alloc, of, *offset)?;
            Ok(format!(in alloc; "{address}/{place}")?)
        }
    }
}

// The bytes of a block, in brackets if it may be written to and else in parentheses.
fn add_block(
    alloc: Global,
    text: &mut String,
    parts: &[Part<SymName>],
    writable: bool,
) -> anyhow::Result<()> {
    let (open, close) = if writable { ('[', ']') } else { ('(', ')') };
    text.push(open)?;
    for (place, part) in parts.iter().enumerate() {
        if place > 0 {
            text.push(' ')?;
        }
        text.push_str(part_text(alloc, part)?.as_str())?;
    }
    text.push(close)?;
    Ok(())
}

fn add_shown(alloc: Global, text: &mut String, shown: &Shown) -> anyhow::Result<()> {
    text.push_str(value_text(alloc, &shown.value)?.as_str())?;
    match &shown.block {
        Some(parts) => add_block(alloc, text, parts.as_slice(), shown.writable),
        None => Ok(()),
    }
}

/// Adds a call outside with what it is shown, and a semicolon. The error is want of memory.
pub(crate) fn add_asked(alloc: Global, text: &mut String, wanted: &Wanted) -> anyhow::Result<()> {
    text.push_str(name_text(alloc, wanted.name.as_slice())?.as_str())?;
    text.push('(')?;
    for (place, shown) in wanted.args.as_slice().iter().enumerate() {
        if place > 0 {
            text.push_str(", ")?;
        }
        add_shown(alloc, text, shown)?;
    }
    text.push_str("); ")?;
    Ok(())
}

//! Names of copies.
ghost use Rattle.std.specs.Prelude.{◌≡◌, ◌++◌, ◌∷◌, OnOk, IfOk, flat_map};
ghost use Rattle.demands.specs.Names.{item_text, items_text, are_unknown, copy_name};

use crate::Pattern;
use ir_types::{Bytes, Known, OutOfMemory};
use itoa::Buffer;
use std::alloc::Global;

fn write_item(out: &mut Bytes, item: &Known) -> Result<(), OutOfMemory>
    ensures { OnOk result (out.new ≡ out.old ++ item_text item.now) }
{
    match item {
        Known::Unknown => out.append(b"_"),
        Known::Num(number) => {
            let mut buffer = Buffer::new();
            out.append(buffer.format(*number).as_bytes())
        }
        Known::Null => out.append(b"null"),
    }
}

fn write_more(out: &mut Bytes, items: &[Known]) -> Result<(), OutOfMemory>
    ensures { OnOk result (out.new ≡ out.old ++ flat_map (λ item. 44 ∷ item_text item) items.now) }
{
    for item in items {
        out.append(b",")?;
        write_item(out, item)?;
    }
    Ok(())
}

fn write_items(out: &mut Bytes, items: &[Known]) -> Result<(), OutOfMemory>
    ensures { OnOk result (out.new ≡ out.old ++ items_text items.now) }
{
    match items {
        [] => Ok(()),
        [first, more @ ..] => {
            write_item(out, first)?;
            write_more(out, more)
        }
    }
}

fn are_unknown(items: &[Known]) -> bool
    ensures { result ≡ are_unknown items.now }
{
    for item in items {
        match item {
            Known::Unknown => {}
            Known::Num(_) => return false,
            Known::Null => return false,
        }
    }
    true
}

/// The name of a function's copy: the items of the pattern in parentheses, with commas between, before the function's
/// name, where an item is `_`, a number in decimal, or `null`. Where nothing is known it is the function's own name.
/// `OutOfMemory` says that the allocator refused memory.
pub fn clone_name(alloc: Global, pattern: &Pattern, name: &[u8]) -> Result<Bytes, OutOfMemory>
    ensures { IfOk result (λ text. text ≡ copy_name pattern.now name.now) }
{
    if are_unknown(pattern.items()) {
        return Bytes::from_slice(alloc, name);
    }
    let mut text = Bytes::from_slice(alloc, b"(")?;
    write_items(&mut text, pattern.items())?;
    text.append(b")")?;
    text.append(name)?;
    Ok(text)
}

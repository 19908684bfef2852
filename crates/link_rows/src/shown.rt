//! Programs and refusals as text.
ghost use Rattle.std.specs.Prelude.{IsSome, IsTrue};
ghost use Rattle.ir_syntax.specs.Symbols.{item_at};

use ir_syntax::{Builtin, Intrinsic, Item, Module, Program, Sym, Target};
use ir_types::Known;
use linker::LinkFault;
use std::alloc::Global;

/// A name, where a byte that isn't a letter, a digit or a mark of ASCII is two digits behind a backslash.
pub(crate) fn name_text(alloc: Global, name: &[u8]) -> anyhow::Result<String> {
    let mut text = String::new(alloc);
    for byte in name {
        if byte.is_ascii_graphic() {
            text.push(char::from(*byte))?;
        } else {
            text.push_str(format!(in alloc; "\\{byte:02x}")?.as_str())?;
        }
    }
    Ok(text)
}

fn symbol_text(alloc: Global, symbol: Sym) -> anyhow::Result<String> {
    let module = symbol.module;
    let item = symbol.item;
    Ok(format!(in alloc; "{module}.{item}")?)
}

fn builtin_word(builtin: Builtin) -> &'static str {
    match builtin {
        Builtin::Malloc => "malloc",
        Builtin::Calloc => "calloc",
        Builtin::Free => "free",
        Builtin::Exit => "exit",
        Builtin::Abort => "abort",
    }
}

fn intrinsic_word(intrinsic: Intrinsic) -> &'static str {
    match intrinsic {
        Intrinsic::Memcpy => "memcpy",
        Intrinsic::Memmove => "memmove",
        Intrinsic::Memset => "memset",
    }
}

fn target_text(alloc: Global, target: Target) -> anyhow::Result<String> {
    match target {
        Target::Def(symbol) => symbol_text(alloc, symbol),
        Target::Outside => Ok(String::from_str(alloc, "outside")?),
        Target::Builtin(builtin) => {
            let word = builtin_word(builtin);
            Ok(format!(in alloc; "builtin-{word}")?)
        }
        Target::Intrinsic(intrinsic) => {
            let word = intrinsic_word(intrinsic);
            Ok(format!(in alloc; "intrinsic-{word}")?)
        }
        Target::Nothing => Ok(String::from_str(alloc, "nothing")?),
    }
}

fn known_text(alloc: Global, known: &Known) -> anyhow::Result<String> {
    match known {
        Known::Unknown => Ok(String::from_str(alloc, "?")?),
        Known::Num(number) => Ok(format!(in alloc; "{number}")?),
        Known::Null => Ok(String::from_str(alloc, "null")?),
    }
}

pub(crate) fn name_of(item: &Item) -> &[u8] {
    match item {
        Item::Var(var) => var.name.as_slice(),
        Item::Func(func) => func.name.as_slice(),
    }
}

/// Whether the symbol names an item.
fn has_item(program: &Program, symbol: Sym) -> bool
    ensures { IsTrue result → IsSome (item_at program.now.modules symbol) }
{
    match program.modules().get(symbol.module) {
        Some(module) => symbol.item < module.items.len(),
        None => false,
    }
}

/// The items of the module at a place: the name of each, what it stands for, and its canonical symbol.
fn add_items(
    alloc: Global,
    text: &mut String,
    program: &Program,
    place: usize,
    module: &Module,
) -> anyhow::Result<()> {
    for (item, found) in module.items.as_slice().iter().enumerate() {
        let symbol = Sym {
            module: place,
            item,
        };
        if has_item(program, symbol) {
            let name = name_text(alloc, name_of(found))?;
            let target = target_text(alloc, *program.target(symbol))?;
            let canonical = symbol_text(alloc, program.canonical(symbol))?;
            text.push_str(format!(in alloc; " {name}={target}/{canonical}")?.as_str())?;
        }
    }
    Ok(())
}

/// The entry with what is known of its arguments, the exports, and the items of each module.
pub(crate) fn program_text(alloc: Global, program: &Program) -> anyhow::Result<String> {
    let entry = symbol_text(alloc, program.entry())?;
    let mut text = format!(in alloc; "ok entry {entry}")?;
    for known in program.entry_args() {
        text.push_str(format!(in alloc; " {known}", known = known_text(alloc, known)?)?.as_str())?;
    }
    if !program.exports().is_empty() {
        text.push_str(" exports")?;
    }
    for symbol in program.exports() {
        text.push_str(format!(in alloc;
            " {symbol}",
            symbol = symbol_text(alloc, *symbol)?
        )?.as_str())?;
    }
    for (place, module) in program.modules().iter().enumerate() {
        text.push_str(" |")?;
        add_items(alloc, &mut text, program, place, module)?;
    }
    Ok(text)
}

/// The rule of a refusal, and the symbol.
pub(crate) fn fault_text(alloc: Global, fault: &LinkFault) -> anyhow::Result<String> {
    let (word, symbol) = match fault {
        LinkFault::TwoDefinitions { symbol } => ("two-definitions", symbol.as_slice()),
        LinkFault::NoDefinition { symbol } => ("no-definition", symbol.as_slice()),
        LinkFault::TypeClash { symbol } => ("type-clash", symbol.as_slice()),
        LinkFault::NoEntry { symbol } => ("no-entry", symbol.as_slice()),
        LinkFault::EntryShape { symbol } => ("entry-shape", symbol.as_slice()),
        LinkFault::NoExport { symbol } => ("no-export", symbol.as_slice()),
        LinkFault::ExportShape { symbol } => ("export-shape", symbol.as_slice()),
        LinkFault::OutOfMemory => return Ok(String::from_str(alloc, "memory")?),
    };
    let name = name_text(alloc, symbol)?;
    Ok(format!(in alloc; "refused {word} {name}")?)
}

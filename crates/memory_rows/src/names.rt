//! Values as words.
ghost use Rattle.std.specs.Prelude.{IsSome};
ghost use Rattle.ir_syntax.specs.Symbols.{item_at};

use block_memory::{Name, Val};
use ir_syntax::{Item, Module, Program, Sym};

pub fn item_name(item: &Item) -> &[u8] {
    match item {
        Item::Var(var) => var.name.as_slice(),
        Item::Func(func) => func.name.as_slice(),
    }
}

/// The name of a block of an item, which stands at its canonical symbol.
fn name_of(program: &Program, symbol: Sym, item: &Item) -> Name<Sym>
    requires { IsSome (item_at program.now.modules symbol) }
{
    match item {
        Item::Var(_) => Name::Var(program.canonical(symbol)),
        Item::Func(_) => Name::Func(program.canonical(symbol)),
    }
}

/// The name of the block of the item at a symbol, if there is one.
fn named_at(program: &Program, symbol: Sym) -> Option<Name<Sym>> {
    match program.modules().get(symbol.module) {
        Some(module) => match module.items.as_slice().get(symbol.item) {
            Some(item) => Some(name_of(program, symbol, item)),
            None => None,
        },
        None => None,
    }
}

/// The place of the first item of a module with this name.
fn place_in(module: &Module, name: &str) -> Option<usize> {
    module
        .items
        .as_slice()
        .iter()
        .position(|item| item_name(item) == name.as_bytes())
}

/// The block of the first item with this name.
fn item_block(program: &Program, name: &str) -> Option<Name<Sym>> {
    for (place, module) in program.modules().iter().enumerate() {
        if let Some(item) = place_in(module, name) {
            return named_at(
                program,
                Sym {
                    module: place,
                    item,
                },
            );
        }
    }
    None
}

/// The block that a word names: one of an item, or one that was made, by its number.
pub fn block_of(program: &Program, word: &str) -> Option<Name<Sym>> {
    match word.strip_prefix('@') {
        Some(name) => item_block(program, name),
        None => Some(Name::Made(word.strip_prefix('b')?.parse().ok()?)),
    }
}

/// A word and the offset behind it.
fn with_offset(word: &str) -> Option<(&str, i64)> {
    if let Some((base, offset)) = word.split_once('+') {
        return Some((base, offset.parse().ok()?));
    }
    match word.split_once('-') {
        Some((base, below)) => Some((base, 0i64.checked_sub(below.parse().ok()?)?)),
        None => Some((word, 0)),
    }
}

/// The address that a word spells.
fn address_of(program: &Program, word: &str) -> Option<Val<Sym>> {
    let (base, offset) = with_offset(word)?;
    Some(Val::At(block_of(program, base)?, offset))
}

/// The value that a word spells.
pub fn value_of(program: &Program, word: &str) -> Option<Val<Sym>> {
    match word {
        "null" => Some(Val::Null),
        "poison" => Some(Val::Poison),
        _ => match word.parse() {
            Ok(number) => Some(Val::Num(number)),
            Err(_) => address_of(program, word),
        },
    }
}

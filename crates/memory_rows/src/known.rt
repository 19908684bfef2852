//! Which names and values may be asked for.
ghost use Rattle.std.specs.Prelude.{◌≡◌};
ghost use Rattle.ir_syntax.specs.Symbols.{item_at};
ghost use Rattle.ir_syntax.specs.Suits as suits;
ghost use Rattle.block_memory.specs.Parts as parts;
ghost use Rattle.memory_rows.specs.Known as knowing;

use block_memory::{Name, Val};
use ir_syntax::{Item, Program, Sym};
use ir_types::Scalar;

/// Whether a symbol is that of a variable's definition.
fn is_variable(program: &Program, symbol: Sym) -> bool
    ensures { result ≡ knowing.is_variable (item_at program.now.modules symbol) }
{
    match program.modules().get(symbol.module) {
        Some(module) => match module.items.as_slice().get(symbol.item) {
            Some(item) => match item {
                Item::Var(var) => var.init.is_some(),
                Item::Func(_) => false,
            },
            None => false,
        },
        None => false,
    }
}

/// Whether a name is that of a block of the program, or of one of so many that were made.
pub fn is_of(program: &Program, made: u64, of: &Name<Sym>) -> bool
    ensures { result ≡ knowing.is_of program.now made of.now }
{
    match of {
        Name::Var(symbol) => is_variable(program, *symbol),
        Name::Func(_) => true,
        Name::Made(number) => *number < made,
    }
}

fn is_pointer(ty: Scalar) -> bool
    ensures { result ≡ suits.is_pointer ty }
{
    match ty {
        Scalar::I1 | Scalar::I8 | Scalar::I16 | Scalar::I32 | Scalar::I64 => false,
        Scalar::Ptr => true,
    }
}

/// Whether a value is one of the type.
pub fn is_value_of(ty: Scalar, value: &Val<Sym>) -> bool
    ensures { result ≡ parts.is_value_of ty value.now }
{
    match value {
        Val::Num(number) => ty.holds(*number),
        Val::Null => is_pointer(ty),
        Val::At(_, _) => is_pointer(ty),
        Val::Poison => true,
    }
}

/// Whether a value is a byte of memory as a fill has it: a number below 256 or poison.
pub fn is_byte(value: &Val<Sym>) -> bool
    ensures { result ≡ knowing.is_byte value.now }
{
    match value {
        Val::Num(number) => *number < 256,
        Val::Null => false,
        Val::At(_, _) => false,
        Val::Poison => true,
    }
}

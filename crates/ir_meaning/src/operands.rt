//! The values of operands.
ghost use Rattle.std.specs.Prelude.{◌≡◌, Some, IsSome};
ghost use Rattle.ir_syntax.specs.Symbols.{item_at};
ghost use Rattle.block_memory.specs.Answers.{Gives, IsMeant};
ghost use Rattle.block_memory.specs.Starts as starts;
ghost use Rattle.ir_steps.specs.Operands as operands;
ghost use Rattle.ir_meaning.specs.Models.{frame_of};

use crate::frame::Frame;
use block_memory::{Name, Val};
use ir_syntax::{Const, Item, Operand, Program, Sym};

/// The same name again.
pub fn name_again(of: &Name<Sym>) -> Name<Sym>
    ensures { result ≡ of.now }
{
    match of {
        Name::Var(sym) => Name::Var(*sym),
        Name::Func(sym) => Name::Func(*sym),
        Name::Made(number) => Name::Made(*number),
    }
}

/// The same value again.
pub fn value_again(value: &Val<Sym>) -> Val<Sym>
    ensures { result ≡ value.now }
{
    match value {
        Val::Num(n) => Val::Num(*n),
        Val::Null => Val::Null,
        Val::At(of, offset) => Val::At(name_again(of), *offset),
        Val::Poison => Val::Poison,
    }
}

/// The name of the block of an item's address.
#[tactic(auto, using(crate::proofs::Meaning::named_is_item))]
fn name_of(p: &Program, sym: Sym) -> Name<Sym>
    requires { IsSome (starts.name_of p.now sym) }
    ensures { starts.name_of p.now sym ≡ Some result }
{
    match &p.modules()[sym.module].items.as_slice()[sym.item] {
        Item::Var(_) => Name::Var(p.canonical(sym)),
        Item::Func(_) => Name::Func(p.canonical(sym)),
    }
}

/// The value of a constant in the module at a place.
fn constant_value(p: &Program, home: usize, constant: &Const) -> Val<Sym>
    requires { IsSome (operands.constant_value p.now home constant.now) }
    ensures { operands.constant_value p.now home constant.now ≡ Some result }
{
    match constant {
        Const::Int(n) => Val::Num(*n),
        Const::Null => Val::Null,
        Const::Addr(item, offset) => {
            let sym = Sym {
                module: home,
                item: *item,
            };
            Val::At(name_of(p, sym), *offset)
        }
        Const::Undef => Val::Poison,
        Const::Poison => Val::Poison,
        Const::Zero => unreachable!(),
        Const::Text(_) => unreachable!(),
        Const::Many(_) => unreachable!(),
    }
}

/// The value of an operand in a call.
pub fn value(p: &Program, frame: &Frame, operand: &Operand) -> Val<Sym>
    requires { IsMeant (operands.value p.now (frame_of p.now frame.now) operand.now) }
    ensures { operands.value p.now (frame_of p.now frame.now) operand.now ≡ Gives result }
{
    match operand {
        Operand::Param(k) => value_again(&frame.args[*k]),
        Operand::Reg(k) => match &frame.results[*k] {
            Some(value) => value_again(value),
            None => unreachable!(),
        },
        Operand::Const(constant) => constant_value(p, frame.func.module, constant),
    }
}

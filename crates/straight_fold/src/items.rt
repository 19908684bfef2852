//! The items of a program, and which function its bodies name.
ghost use Rattle.std.specs.Prelude.{◌≡◌, ◌≤◌, IfSome, length, slice_get};
ghost use Rattle.ir_syntax.specs.Straight.{IsStraightProgram};
ghost use Rattle.straight_plan.specs.Asked.{body_insts, insts_at, is_copied, is_named, name_at, names_place, place_in, program_items, written_callee};
ghost use Rattle.std.specs.List.{list_any};
ghost use Rattle.straight_fold.specs.Items.{AreStraightItems};

use ir_syntax::{Body, Const, Func, Inst, Item, Operand};
use straight_plan::StraightProgram;

// A function with a longer name isn't copied.
const LONGEST_NAME: usize = 3_072;

/// The items of the program's module.
pub(crate) fn items_of(program: &StraightProgram) -> &[Item]
    ensures items { result.now ≡ program_items program.now }
    ensures straight { AreStraightItems result.now }
    ensures program { IsStraightProgram program.now }
{
    match program.modules() {
        [] => &[],
        [module, ..] => module.items.as_slice(),
    }
}

fn body_insts(body: &Option<Body>) -> &[Inst]
    requires { IfSome body.now (λ b. length b.blocks ≤ 1) }
    ensures { result.now ≡ body_insts body.now }
{
    match body {
        Some(body) => match body.blocks.as_slice() {
            [] => &[],
            [block, ..] => block.insts.as_slice(),
        },
        None => &[],
    }
}

/// The instructions of the function at a place: none where there is no function.
pub(crate) fn insts_at(items: &[Item], place: usize) -> &[Inst]
    requires { AreStraightItems items.now }
    ensures { result.now ≡ insts_at (slice_get items.now place) }
{
    match items.get(place) {
        Some(Item::Func(func)) => body_insts(&func.body),
        Some(Item::Var(_)) => &[],
        None => &[],
    }
}

fn place_in(constant: &Const) -> Option<usize>
    ensures { result ≡ place_in constant.now }
{
    match constant {
        Const::Addr(place, 0) => Some(*place),
        Const::Addr(_, _) => None,
        Const::Int(_) => None,
        Const::Null => None,
        Const::Undef => None,
        Const::Poison => None,
        Const::Zero => None,
        Const::Text(_) => None,
        Const::Many(_) => None,
    }
}

/// The place of the function whose name is written as the callee.
pub(crate) fn written_callee(callee: &Operand) -> Option<usize>
    ensures { result ≡ written_callee callee.now }
{
    match callee {
        Operand::Param(_) => None,
        Operand::Reg(_) => None,
        Operand::Const(constant) => place_in(constant),
    }
}

fn names_place(place: usize, inst: &Inst) -> bool
    ensures { result ≡ names_place place inst.now }
{
    match inst {
        Inst::Bin { .. } => false,
        Inst::Icmp { .. } => false,
        Inst::Select { .. } => false,
        Inst::Cast { .. } => false,
        Inst::Alloca { .. } => false,
        Inst::Load { .. } => false,
        Inst::Store { .. } => false,
        Inst::Gep { .. } => false,
        Inst::Call { callee, .. } => match written_callee(callee) {
            Some(callee_place) => callee_place == place,
            None => false,
        },
    }
}

fn any_names(place: usize, insts: &[Inst]) -> bool
    ensures { result ≡ list_any (names_place place) insts.now }
{
    for inst in insts {
        if names_place(place, inst) {
            return true;
        }
    }
    false
}

/// Whether a body names the function at the place.
pub(crate) fn is_named(items: &[Item], place: usize) -> bool
    requires { AreStraightItems items.now }
    ensures { result ≡ is_named items.now place }
{
    for k in 0..items.len() {
        if any_names(place, insts_at(items, k)) {
            return true;
        }
    }
    false
}

/// Whether the function at the place may be copied: its name isn't too long.
pub(crate) fn is_copied(items: &[Item], place: usize) -> bool
    ensures { result ≡ is_copied items.now place }
{
    match items.get(place) {
        Some(Item::Var(var)) => var.name.len() <= LONGEST_NAME,
        Some(Item::Func(func)) => func.name.len() <= LONGEST_NAME,
        None => true,
    }
}

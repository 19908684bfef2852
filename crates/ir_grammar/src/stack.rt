//! The stack of items: what stands next in the text is its top.
ghost use Rattle.std.specs.Prelude.{◌≡◌, ◌++◌, ◌∷◌, IfOk, OnOk, List as ListOf, reverse, option_map};
ghost use Rattle.std.specs.Option.{option_to_list};
ghost use Rattle.ir_grammar.specs.declared.grammar.Item.{Item as ItemOf};
ghost use Rattle.ir_grammar.specs.Derives.{is_comma, is_flag};
ghost use Rattle.ir_grammar.specs.Mirrors.Walk.{keep_of, flag_taken, settle, may_end};
ghost use Rattle.ir_grammar.specs.Mirrors.Steps.{step_of, by_move, settled_of};

use crate::grammar::{FlagPart, Flags, Item, Keep};
use crate::rules::Step;
use crate::shape::{Free, Shape};
use crate::tables::turn_at;
use crate::terminals::{is_same, stands_for};
use ir_types::{List, OutOfMemory};

/// What an item does at a token.
#[derive(Clone, Copy, Debug)]
pub enum Move {
    /// It takes the token: this stands in its place, and then this item.
    Takes(Step, Option<Item>),
    /// It is left out.
    Leaves,
    /// The token can't stand here.
    Refuses,
}

/// What becomes of a token: an item takes it, or all are left out, or one refuses it.
#[derive(Clone, Copy, Debug)]
pub enum Settled {
    Taken(Keep),
    AllLeft,
    Refused,
}

/// The token is taken as it is, and this item comes next.
fn taken(keep: Keep, next: Option<Item>) -> Step
    ensures { step_of result ≡ (keep, option_to_list next) }
{
    Step {
        keep,
        behind: &[],
        then: next,
        last: &[],
    }
}

fn is_flag(part: Option<FlagPart>, shape: Shape) -> bool
    ensures { result ≡ is_flag part shape }
{
    match part {
        None => false,
        Some(part) => is_same(Shape::Free(Free::Flag(part.flag)), shape),
    }
}

fn keep_of(part: Option<FlagPart>) -> Keep
    ensures { result ≡ keep_of part }
{
    match part {
        None => Keep::Drops,
        Some(part) => part.keep,
    }
}

/// How the token is kept where it is one of these flags, and the flags that may still come.
fn flag_taken(flags: Flags, shape: Shape) -> Option<(Keep, Flags)>
    ensures { result ≡ flag_taken flags shape }
{
    if is_flag(flags.a, shape) {
        let left = Flags { a: None, ..flags };
        Some((keep_of(flags.a), left))
    } else if is_flag(flags.b, shape) {
        let left = Flags { b: None, ..flags };
        Some((keep_of(flags.b), left))
    } else if is_flag(flags.c, shape) {
        let left = Flags { c: None, ..flags };
        Some((keep_of(flags.c), left))
    } else {
        None
    }
}

/// What an item does at a token.
fn move_of(item: Item, shape: Shape) -> Move
    ensures { (items : ListOf ItemOf) → settle shape (item ∷ items) ≡ by_move result items (settle shape items) }
{
    match item {
        Item::Token(terminal, keep) => {
            if stands_for(terminal, shape) {
                Move::Takes(taken(keep, None), None)
            } else {
                Move::Refuses
            }
        }
        Item::One(name) => match turn_at(name, shape) {
            Some(step) => Move::Takes(step, None),
            None => Move::Refuses,
        },
        Item::May(name) => match turn_at(name, shape) {
            Some(step) => Move::Takes(step, None),
            None => Move::Leaves,
        },
        Item::Many(name) => match turn_at(name, shape) {
            Some(step) => Move::Takes(step, Some(Item::Many(name))),
            None => Move::Leaves,
        },
        Item::Separated(name) => match turn_at(name, shape) {
            Some(step) => Move::Takes(step, Some(Item::Further(name))),
            None => Move::Leaves,
        },
        Item::Further(name) => {
            if is_same(Shape::Comma, shape) {
                let one = taken(Keep::Drops, Some(Item::One(name)));
                Move::Takes(one, Some(Item::Further(name)))
            } else {
                Move::Leaves
            }
        }
        Item::AnyOrder(flags) => match flag_taken(flags, shape) {
            Some((keep, left)) => Move::Takes(taken(keep, None), Some(Item::AnyOrder(left))),
            None => Move::Leaves,
        },
    }
}

/// Puts items on the stack, so that the first of them is on top.
fn push_all(stack: &mut List<Item>, items: &[Item]) -> Result<(), OutOfMemory>
    ensures { OnOk result (reverse stack.new ≡ items.now ++ reverse stack.old) }
{
    let mut left = items;
    while let [before @ .., last] = left {
        stack.push(*last)?;
        left = before;
    }
    Ok(())
}

/// Puts an item on the stack, if there is one.
fn push_one(stack: &mut List<Item>, item: Option<Item>) -> Result<(), OutOfMemory>
    ensures { OnOk result (reverse stack.new ≡ option_to_list item ++ reverse stack.old) }
{
    if let Some(item) = item {
        stack.push(item)?;
    }
    Ok(())
}

/// Puts what stands for an item in its place.
fn push_step(stack: &mut List<Item>, step: Step, again: Option<Item>) -> Result<(), OutOfMemory>
    ensures { OnOk result (reverse stack.new ≡ (step_of step).1 ++ (option_to_list again ++ reverse stack.old)) }
{
    push_one(stack, again)?;
    push_all(stack, step.last)?;
    push_one(stack, step.then)?;
    push_all(stack, step.behind)
}

/// Finds the item that takes a token, and puts what stands for it in its place. Those above it
/// are left out.
pub fn settle(stack: &mut List<Item>, shape: Shape) -> Result<Settled, OutOfMemory>
    ensures { IfOk result (λ settled. settle shape (reverse stack.old) ≡ settled_of settled (reverse stack.new)) }
{
    while let Some(item) = stack.pop() {
        match move_of(item, shape) {
            Move::Takes(step, again) => {
                push_step(stack, step, again)?;
                return Ok(Settled::Taken(step.keep));
            }
            Move::Leaves => {}
            Move::Refuses => return Ok(Settled::Refused),
        }
    }
    Ok(Settled::AllLeft)
}

/// Whether the tokens may end before these items.
pub fn may_end(stack: &[Item]) -> bool
    ensures { result ≡ may_end (reverse stack.now) }
{
    let mut left = stack;
    while let [before @ .., last] = left {
        match last {
            Item::Token(_, _) | Item::One(_) => return false,
            _ => {}
        }
        left = before;
    }
    true
}

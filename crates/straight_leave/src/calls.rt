//! What is left of calls.
ghost use Rattle.std.specs.Prelude.{◌≡◌, map, slice_get, IfOk};
ghost use Rattle.ir_syntax.specs.Straight.{word_type as type_of_words};
ghost use Rattle.straight_plan.specs.Asked.{name_at, place_in as place_named, written_callee as place_called, known_const as known_of_const, known_of as known_of_operand, is_copied as can_copy, asked};
ghost use Rattle.straight_plan.specs.Residual.{put as put_in, put_arg as put_in_arg};
ghost use Rattle.straight_plan.specs.Left.{at_unknown};
ghost use Rattle.straight_leave.specs.Numbers.{numbered as renumbered};
ghost use Rattle.straight_leave.specs.Places.{place_in as place_among_rows};
ghost use Rattle.straight_leave.specs.Rewritten.{new_arg, new_call as call_of, asked_by, new_callee};

use crate::facts::put;
use crate::numbers::{Site, numbered};
use crate::places::place_in;
use demand_core::Row;
use indexmap::IndexSet;
use ir_syntax::{Arg, Const, Inst, Item, Operand};
use ir_types::{Copied, Ext, FnType, Known, OutOfMemory, Scalar};
use sqlite_items::Items as List;
use std::alloc::Global;

// A function with a longer name isn't copied.
const MOST_NAME: usize = 3072;

fn place_named(constant: &Const) -> Option<usize>
    ensures { result ≡ place_named constant.now }
{
    match constant {
        Const::Int(_) => None,
        Const::Null => None,
        Const::Addr(place, 0) => Some(*place),
        Const::Addr(_, _) => None,
        Const::Undef => None,
        Const::Poison => None,
        Const::Zero => None,
        Const::Text(_) => None,
        Const::Many(_) => None,
    }
}

/// The place of the function whose name is written as the callee.
fn written_callee(callee: &Operand) -> Option<usize>
    ensures { result ≡ place_called callee.now }
{
    match callee {
        Operand::Param(_) => None,
        Operand::Reg(_) => None,
        Operand::Const(constant) => place_named(constant),
    }
}

fn known_const(constant: &Const) -> Known
    ensures { result ≡ known_of_const constant.now }
{
    match constant {
        Const::Int(number) => Known::Num(*number),
        Const::Null => Known::Null,
        Const::Addr(_, _) => Known::Unknown,
        Const::Undef => Known::Unknown,
        Const::Poison => Known::Unknown,
        Const::Zero => Known::Unknown,
        Const::Text(_) => Known::Unknown,
        Const::Many(_) => Known::Unknown,
    }
}

/// What is known of an argument, once known values are put in.
fn known_of(operand: &Operand) -> Known
    ensures { result ≡ known_of_operand operand.now }
{
    match operand {
        Operand::Param(_) => Known::Unknown,
        Operand::Reg(_) => Known::Unknown,
        Operand::Const(constant) => known_const(constant),
    }
}

fn name_at(items: &[Item], place: usize) -> &[u8]
    ensures { result.now ≡ name_at (slice_get items.now place) }
{
    match items.get(place) {
        Some(Item::Var(var)) => var.name.as_slice(),
        Some(Item::Func(func)) => func.name.as_slice(),
        None => b"",
    }
}

fn is_copied(items: &[Item], place: usize) -> bool
    ensures { result ≡ can_copy items.now place }
{
    name_at(items, place).len() <= MOST_NAME
}

/// What a call asks to be known of a function's arguments.
fn asked_pattern(
    alloc: Global,
    items: &[Item],
    place: usize,
    args: &[Arg],
) -> Result<Vec<Known>, OutOfMemory>
    ensures { IfOk result (λ pattern. pattern.items ≡ (asked_by items.now place args.now).pattern) }
{
    let copied = is_copied(items, place);
    let mut pattern = Vec::new(alloc);
    for arg in args {
        let known = if copied {
            known_of(&arg.value)
        } else {
            Known::Unknown
        };
        pattern.push(known)?;
    }
    Ok(pattern)
}

/// The arguments with known values put in.
fn put_args(alloc: Global, site: &Site, args: &[Arg]) -> Result<List<Arg>, OutOfMemory>
    ensures { IfOk result (λ known. known ≡ map (put_in_arg site.now.pattern.now site.now.facts.now) args.now) }
{
    let mut known = List::new(alloc);
    for arg in args {
        known.push(Arg {
            ty: arg.ty,
            ext: arg.ext,
            value: put(alloc, site.pattern, site.facts, &arg.value)?,
        })?;
    }
    Ok(known)
}

/// The arguments at the unknown items of a pattern, with new numbers.
fn left_args(
    alloc: Global,
    site: &Site,
    pattern: &[Known],
    args: &[Arg],
) -> Result<List<Arg>, OutOfMemory>
    ensures { IfOk result (λ left. left ≡ map (new_arg (renumbered site.now.whole site.now.pattern.now site.now.numbers.now)) (at_unknown pattern.now args.now)) }
{
    let mut left = List::new(alloc);
    for (k, arg) in args.iter().enumerate() {
        match pattern.get(k).copied() {
            Some(Known::Unknown) => left.push(Arg {
                ty: arg.ty,
                ext: arg.ext,
                value: numbered(site, arg.value.copied(alloc)?),
            })?,
            Some(Known::Num(_)) => {}
            Some(Known::Null) => {}
            None => {}
        }
    }
    Ok(left)
}

/// The type of a function of so many words.
fn word_type(alloc: Global, words: usize) -> Result<FnType, OutOfMemory>
    ensures { IfOk result (λ ty. ty ≡ type_of_words words) }
{
    let params = vec![in alloc; Scalar::I32; words]?;
    Ok(FnType {
        params: List::from_vec(params),
        variadic: false,
        returns: Some(Scalar::I32),
    })
}

/// The call of what a call asks for, with the arguments that it leaves unknown.
fn named_call(
    alloc: Global,
    items: &[Item],
    rows: &IndexSet<Row>,
    site: &Site,
    ret_ext: Ext,
    place: usize,
    args: &[Arg],
) -> Result<Inst, OutOfMemory>
    ensures { IfOk result (λ left. let ask = asked_by items.now place args.now in
        left ≡ call_of (renumbered site.now.whole site.now.pattern.now site.now.numbers.now) (place_among_rows rows.now.keys ask) ask.pattern ret_ext args.now) }
{
    let pattern = asked_pattern(alloc, items, place, args)?;
    let place = place_in(alloc, rows, place, pattern.as_slice())?;
    let args = left_args(alloc, site, pattern.as_slice(), args)?;
    Ok(Inst::Call {
        fn_ty: word_type(alloc, args.len())?,
        ret_ext,
        callee: Operand::Const(Const::Addr(place, 0)),
        args,
    })
}

/// What is left of a call that stays, with known values put in.
pub(crate) fn left_call(
    alloc: Global,
    items: &[Item],
    rows: &IndexSet<Row>,
    site: &Site,
    fn_ty: &FnType,
    ret_ext: Ext,
    callee: &Operand,
    args: &[Arg],
) -> Result<Inst, OutOfMemory>
    ensures { IfOk result (λ left. let known = put_in site.now.pattern.now site.now.facts.now callee.now in
        left ≡ new_callee items.now (place_among_rows rows.now.keys) (renumbered site.now.whole site.now.pattern.now site.now.numbers.now)
        fn_ty.now ret_ext known (map (put_in_arg site.now.pattern.now site.now.facts.now) args.now) (place_called known)) }
{
    let callee = put(alloc, site.pattern, site.facts, callee)?;
    let args = put_args(alloc, site, args)?;
    match written_callee(&callee) {
        Some(place) => named_call(alloc, items, rows, site, ret_ext, place, args.as_slice()),
        None => Ok(Inst::Call {
            fn_ty: fn_ty.copied(alloc)?,
            ret_ext,
            callee,
            args,
        }),
    }
}

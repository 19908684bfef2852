//! Calls by names.
ghost use Rattle.std.specs.Prelude.{◌≡◌, ◌≤◌, IfOk, length};
ghost use Rattle.winnowed_form.specs.Names.{call_name as name_called};
ghost use Rattle.winnowed_form.specs.Bodies.{known_args, call_to as calling};
ghost use Rattle.reach_prune.specs.Mirrors.Places.{HasRow};
ghost use Rattle.reach_prune.specs.Mirrors.Shown.{shown, shown_setting};

use crate::bodies::Setting;
use crate::copies::{is_copy, items_of};
use crate::grounds::Grounds;
use crate::kept::{all_args, kept_args, kept_types};
use interface::{called, known_of_args};
use ir_syntax::{Arg, Const, Inst, Operand};
use ir_types::{Copied, Ext, FnType, OutOfMemory};
use std::alloc::Global;
use winnowed_form::Named;

/// What a call of the item at a place of the module `home` is written as.
pub(crate) fn call_name(
    alloc: Global,
    g: &Grounds<'_>,
    home: usize,
    place: usize,
    args: &[Arg],
) -> Result<Named, OutOfMemory>
    requires few { length args.now ≤ 32 }
    ensures name { IfOk result (λ named. named ≡ name_called (shown g.now) home (place, known_args args.now)) }
    ensures short { IfOk result HasRow }
{
    let known = known_of_args(&[], &[], args);
    match called(
        alloc,
        g.program,
        &g.cycles,
        home,
        place,
        &known[..args.len()],
    )? {
        Some(demand) => {
            if is_copy(g, &demand) {
                Ok(Named::CopyOf(demand))
            } else {
                Ok(Named::Own(place))
            }
        }
        None => Ok(Named::Own(place)),
    }
}

/// A call that leaves out what is known of the arguments.
fn short_call(
    alloc: Global,
    w: &Setting<'_>,
    fn_ty: &FnType,
    ret_ext: Ext,
    args: &[Arg],
    named: &Named,
) -> Result<Inst, OutOfMemory>
    requires short { HasRow named.now }
    ensures { IfOk result (λ made. made ≡ calling (shown_setting w.now) fn_ty.now ret_ext args.now named.now) }
{
    let callee = Operand::Const(Const::Addr(w.places.place_or_none(named), 0));
    match named {
        Named::Own(_) => Ok(Inst::Call {
            fn_ty: fn_ty.copied(alloc)?,
            ret_ext,
            callee,
            args: all_args(alloc, w, args)?,
        }),
        Named::CopyOf(demand) => {
            let items = items_of(demand);
            Ok(Inst::Call {
                fn_ty: FnType {
                    params: kept_types(alloc, items, fn_ty.params.as_slice())?,
                    variadic: fn_ty.variadic,
                    returns: fn_ty.returns,
                },
                ret_ext,
                callee,
                args: kept_args(alloc, w, items, args)?,
            })
        }
    }
}

/// A call of the item at a place of the function's module as it is written.
pub(crate) fn written_call(
    alloc: Global,
    w: &Setting<'_>,
    fn_ty: &FnType,
    ret_ext: Ext,
    args: &[Arg],
    place: usize,
) -> Result<Inst, OutOfMemory>
    requires few { length args.now ≤ 32 }
    ensures { IfOk result (λ made. made ≡ calling (shown_setting w.now) fn_ty.now ret_ext args.now (name_called (shown w.now.grounds.now) w.now.home (place, known_args args.now))) }
{
    let named = call_name(alloc, w.grounds, w.home, place, args)?;
    short_call(alloc, w, fn_ty, ret_ext, args, &named)
}

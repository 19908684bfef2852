//! Calls.
ghost use Rattle.std.specs.Prelude.{◌≡◌, ◌+◌, ◌≤◌, length, drop, option_map, IfOk, IfSome};
ghost use Rattle.ir_types.specs.declared.scalar.Scalar.TheVariants.{Ptr};
ghost use Rattle.ir_types.specs.Names.{is_name};
ghost use Rattle.ir_lexer.specs.Texts.{name_of};
ghost use Rattle.ir_grammar.specs.Tokens.{seen};
ghost use Rattle.ir_scope.specs.Runs.{runs, begins_with};
ghost use Rattle.ir_operands.specs.Mirrors.Naming.{naming};
ghost use Rattle.ir_calls.specs.Mirrors.Shaped.{begins_arg, arg_types, plain_callee_at, returning_value_at, returning_void_at};
ghost use Rattle.ir_operands.specs.Marks.{is_scalar, scalar_at};
ghost use Rattle.ir_calls.specs.Calls.{types_at, whole_at, arg_at, args_at, calls_intrinsic, is_false, ends_in_false, is_call, call_type, made_call, callee_at, dropped_callee_at, void_callee_at, returning_at, call_at};

use ir_grammar::{AtName, Lexeme, Shape};
use ir_lexer::{Kind, Token, decode, undecoded};
use ir_operands::{Names, after, begins_scalar, closes_paren, dots, ext, operand, scalar};
use ir_scope::Scope;
use ir_syntax::{Arg, Const, Inst, Operand};
use ir_types::{Ext, FnType, List, OutOfMemory, Scalar, is_name};
use std::alloc::Global;

/// The most parameters of a function, and the most arguments of a call.
const MOST_ARGUMENTS: usize = 32;

/// Whether an argument stands in front: anything but a closing parenthesis.
fn begins_arg(kept: &[Lexeme]) -> bool
    ensures { result ≡ begins_with begins_arg (seen kept.now) }
{
    match kept {
        [first, ..] => match first.shape {
            Shape::CloseParen => false,
            _ => true,
        },
        [] => false,
    }
}

// ---- the whole type of a call

/// The scalars up to the first lexeme that is none.
fn scalars(alloc: Global, kept: &[Lexeme]) -> Result<Option<(List<Scalar>, usize)>, OutOfMemory>
    ensures exact { IfOk result (λ found. found ≡ runs is_scalar scalar_at (seen kept.now)) }
    ensures within { IfOk result (λ found. IfSome found (λ f. f.1 ≤ length kept.now)) }
{
    let mut scalars = List::new(alloc);
    let mut at = 0;
    'reading: loop {
        let rest = after(kept, at);
        if !begins_scalar(rest) {
            return Ok(Some((scalars, at)));
        }
        match scalar(rest) {
            Some((ty, count)) => {
                scalars.push(ty)?;
                at += count;
            }
            None => return Ok(None),
        }
    }
}

/// The types of fixed parameters, and whether there are more, behind the opening parenthesis, with the closing one.
fn types(
    alloc: Global,
    kept: &[Lexeme],
) -> Result<Option<((List<Scalar>, bool), usize)>, OutOfMemory>
    ensures exact { IfOk result (λ found. found ≡ types_at (seen kept.now)) }
    ensures within { IfOk result (λ found. IfSome found (λ f. f.1 ≤ length kept.now)) }
{
    let (params, count) = match scalars(alloc, kept)? {
        Some(found) => found,
        None => return Ok(None),
    };
    let (variadic, more) = dots(after(kept, count));
    let end = count + more;
    if closes_paren(after(kept, end)) {
        Ok(Some(((params, variadic), end + 1)))
    } else {
        Ok(None)
    }
}

/// The whole type of a function, where it is written.
fn whole(
    alloc: Global,
    kept: &[Lexeme],
) -> Result<Option<(Option<(List<Scalar>, bool)>, usize)>, OutOfMemory>
    ensures exact { IfOk result (λ found. found ≡ whole_at (seen kept.now)) }
    ensures within { IfOk result (λ found. IfSome found (λ f. f.1 ≤ length kept.now)) }
{
    match kept {
        [first, rest @ ..] => match first.shape {
            Shape::OpenParen => match types(alloc, rest)? {
                Some((whole, count)) => Ok(Some((Some(whole), 1 + count))),
                None => Ok(None),
            },
            _ => Ok(Some((None, 0))),
        },
        [] => Ok(Some((None, 0))),
    }
}

// ---- arguments

/// `T attributes a`.
fn arg(alloc: Global, names: &Names, kept: &[Lexeme]) -> Result<Option<(Arg, usize)>, OutOfMemory>
    ensures exact { IfOk result (λ found. found ≡ arg_at (naming names.now) (seen kept.now)) }
    ensures within { IfOk result (λ found. IfSome found (λ f. (1 ≤ f.1) × (f.1 ≤ length kept.now))) }
{
    let (ty, rest) = match kept {
        [first, rest @ ..] => match first.shape {
            Shape::Scalar(ty) => (ty, rest),
            _ => return Ok(None),
        },
        [] => return Ok(None),
    };
    let (ext, skipped) = ext(rest);
    match operand(alloc, names, ty, after(rest, skipped))? {
        Some((value, count)) => Ok(Some((Arg { ty, ext, value }, 1 + skipped + count))),
        None => Ok(None),
    }
}

/// The arguments up to a closing parenthesis.
fn listed_args(
    alloc: Global,
    names: &Names,
    kept: &[Lexeme],
) -> Result<Option<(List<Arg>, usize)>, OutOfMemory>
    ensures exact { IfOk result (λ found. found ≡ runs begins_arg (arg_at (naming names.now)) (seen kept.now)) }
    ensures within { IfOk result (λ found. IfSome found (λ f. f.1 ≤ length kept.now)) }
{
    let mut args = List::new(alloc);
    let mut at = 0;
    'reading: loop {
        let rest = after(kept, at);
        if !begins_arg(rest) {
            return Ok(Some((args, at)));
        }
        match arg(alloc, names, rest)? {
            Some((arg, count)) => {
                args.push(arg)?;
                at += count;
            }
            None => return Ok(None),
        }
    }
}

/// The arguments, with the closing parenthesis.
fn args(
    alloc: Global,
    names: &Names,
    kept: &[Lexeme],
) -> Result<Option<(List<Arg>, usize)>, OutOfMemory>
    ensures exact { IfOk result (λ found. found ≡ args_at (naming names.now) (seen kept.now)) }
    ensures within { IfOk result (λ found. IfSome found (λ f. f.1 ≤ length kept.now)) }
{
    match listed_args(alloc, names, kept)? {
        Some((args, count)) => {
            if closes_paren(after(kept, count)) {
                Ok(Some((args, count + 1)))
            } else {
                Ok(None)
            }
        }
        None => Ok(None),
    }
}

// ---- what a call may be

/// Whether the callee is written as the name of an intrinsic.
fn calls_intrinsic(scope: &Scope, callee: &Operand) -> bool
    ensures { result ≡ calls_intrinsic scope.now.symbols callee.now }
{
    match callee {
        Operand::Const(Const::Addr(place, 0)) => scope.is_intrinsic(*place),
        _ => false,
    }
}

/// Whether this is the constant false of `i1`.
fn is_false(arg: &Arg) -> bool
    ensures { result ≡ is_false arg.now.ty arg.now.value }
{
    match (arg.ty, &arg.value) {
        (Scalar::I1, Operand::Const(Const::Int(0))) => true,
        _ => false,
    }
}

/// Whether the last argument is the constant false.
fn ends_in_false(args: &[Arg]) -> bool
    ensures { result ≡ ends_in_false args.now }
{
    match args.last() {
        Some(arg) => is_false(arg),
        None => false,
    }
}

#[tactic(auto, unfolding(ir_operands::specs::Mirrors::Naming::naming))]
/// Whether a call is one: it has at most 32 parameters and arguments, and a copy or fill of memory isn't volatile.
fn is_call(names: &Names, fn_ty: &FnType, callee: &Operand, args: &[Arg]) -> bool
    ensures { result ≡ is_call (naming names.now) fn_ty.now callee.now args.now }
{
    let few = fn_ty.params.len() <= MOST_ARGUMENTS && args.len() <= MOST_ARGUMENTS;
    few && (!calls_intrinsic(names.scope, callee) || ends_in_false(args))
}

/// The types of arguments.
fn types_of(alloc: Global, args: &[Arg]) -> Result<List<Scalar>, OutOfMemory>
    ensures { IfOk result (λ types. types ≡ arg_types args.now) }
{
    let mut types = List::new(alloc);
    for arg in args {
        types.push(arg.ty)?;
    }
    Ok(types)
}

/// The type of the function that is called: it is written, or else the arguments have its types.
fn call_type(
    alloc: Global,
    returns: Option<Scalar>,
    whole: Option<(List<Scalar>, bool)>,
    args: &[Arg],
) -> Result<FnType, OutOfMemory>
    ensures { IfOk result (λ fn_ty. fn_ty ≡ call_type returns whole args.now) }
{
    let (params, variadic) = match whole {
        Some(whole) => whole,
        None => (types_of(alloc, args)?, false),
    };
    Ok(FnType {
        params,
        variadic,
        returns,
    })
}

/// The call of these parts, where they are those of a call.
fn made_call(
    names: &Names,
    fn_ty: FnType,
    ret_ext: Ext,
    callee: Operand,
    args: List<Arg>,
) -> Option<Inst>
    ensures { result ≡ made_call (naming names.now) fn_ty ret_ext callee args }
{
    if is_call(names, &fn_ty, &callee, args.as_slice()) {
        Some(Inst::Call {
            fn_ty,
            ret_ext,
            callee,
            args,
        })
    } else {
        None
    }
}

/// `callee ( arguments )`.
fn callee(
    alloc: Global,
    names: &Names,
    ret_ext: Ext,
    returns: Option<Scalar>,
    whole: Option<(List<Scalar>, bool)>,
    kept: &[Lexeme],
) -> Result<Option<(Inst, usize)>, OutOfMemory>
    ensures exact { IfOk result (λ found. found ≡ callee_at (naming names.now) ret_ext returns whole (seen kept.now)) }
    ensures within { IfOk result (λ found. IfSome found (λ f. f.1 ≤ length kept.now)) }
{
    let (callee, count) = match operand(alloc, names, Scalar::Ptr, kept)? {
        Some(found) => found,
        None => return Ok(None),
    };
    let (args, more) = match args(alloc, names, after(kept, count))? {
        Some(found) => found,
        None => return Ok(None),
    };
    let fn_ty = call_type(alloc, returns, whole, args.as_slice())?;
    match made_call(names, fn_ty, ret_ext, callee, args) {
        Some(call) => Ok(Some((call, count + more))),
        None => Ok(None),
    }
}

/// `callee ( arguments )` where nothing is returned.
fn plain_callee(
    alloc: Global,
    names: &Names,
    ret_ext: Ext,
    whole: Option<(List<Scalar>, bool)>,
    kept: &[Lexeme],
) -> Result<Option<(Option<Inst>, usize)>, OutOfMemory>
    ensures exact { IfOk result (λ found. found ≡ plain_callee_at (naming names.now) ret_ext whole (seen kept.now)) }
    ensures within { IfOk result (λ found. IfSome found (λ f. f.1 ≤ length kept.now)) }
{
    match callee(alloc, names, ret_ext, None, whole, kept)? {
        Some((call, count)) => Ok(Some((Some(call), count))),
        None => Ok(None),
    }
}

/// Whether the name of `@name` keeps the limits on names.
fn keeps_limits(alloc: Global, text: &[u8]) -> Result<bool, OutOfMemory>
    ensures { IfOk result (λ keeps. keeps ≡ is_name (name_of (drop 1 text.now))) }
{
    let token = Token {
        kind: Kind::AtName,
        from: 0,
        to: text.len(),
    };
    match undecoded(text, token) {
        Some(name) => Ok(is_name(name)),
        None => {
            let name = decode(alloc, text, token)?;
            Ok(is_name(name.as_slice()))
        }
    }
}

/// The name of a call that is dropped, where it keeps the limits on names.
fn dropped_callee(alloc: Global, text: &[u8]) -> Result<Option<(Option<Inst>, usize)>, OutOfMemory>
    ensures exact { IfOk result (λ found. found ≡ dropped_callee_at text.now) }
    ensures taken { IfOk result (λ found. IfSome found (λ f. f.1 ≡ 1)) }
{
    if keeps_limits(alloc, text)? {
        Ok(Some((None, 1)))
    } else {
        Ok(None)
    }
}

/// The same. A call of a name of debug information is dropped, where the name keeps the limits on names.
fn void_callee(
    alloc: Global,
    names: &Names,
    ret_ext: Ext,
    whole: Option<(List<Scalar>, bool)>,
    kept: &[Lexeme],
) -> Result<Option<(Option<Inst>, usize)>, OutOfMemory>
    ensures exact { IfOk result (λ found. found ≡ void_callee_at (naming names.now) ret_ext whole (seen kept.now)) }
    ensures within { IfOk result (λ found. IfSome found (λ f. f.1 ≤ length kept.now)) }
{
    match kept {
        [first, ..] => match first.shape {
            Shape::At(AtName::Debug) => dropped_callee(alloc, first.text),
            _ => plain_callee(alloc, names, ret_ext, whole, kept),
        },
        [] => Ok(None),
    }
}

/// Behind what is returned, where it is a value: the whole type where it is written, the callee and the arguments.
fn returning_value(
    alloc: Global,
    names: &Names,
    ret_ext: Ext,
    ty: Scalar,
    kept: &[Lexeme],
) -> Result<Option<(Option<Inst>, usize)>, OutOfMemory>
    ensures exact { IfOk result (λ found. found ≡ returning_value_at (naming names.now) ret_ext ty (seen kept.now)) }
    ensures within { IfOk result (λ found. IfSome found (λ f. f.1 ≤ length kept.now)) }
{
    let (whole, count) = match whole(alloc, kept)? {
        Some(found) => found,
        None => return Ok(None),
    };
    match callee(alloc, names, ret_ext, Some(ty), whole, after(kept, count))? {
        Some((call, more)) => Ok(Some((Some(call), count + more))),
        None => Ok(None),
    }
}

/// The same behind `void`.
fn returning_void(
    alloc: Global,
    names: &Names,
    ret_ext: Ext,
    kept: &[Lexeme],
) -> Result<Option<(Option<Inst>, usize)>, OutOfMemory>
    ensures exact { IfOk result (λ found. found ≡ returning_void_at (naming names.now) ret_ext (seen kept.now)) }
    ensures within { IfOk result (λ found. IfSome found (λ f. f.1 ≤ length kept.now)) }
{
    let (whole, count) = match whole(alloc, kept)? {
        Some(found) => found,
        None => return Ok(None),
    };
    match void_callee(alloc, names, ret_ext, whole, after(kept, count))? {
        Some((call, more)) => Ok(Some((call, count + more))),
        None => Ok(None),
    }
}

/// What is returned, and what stands behind it.
fn returning(
    alloc: Global,
    names: &Names,
    ret_ext: Ext,
    kept: &[Lexeme],
) -> Result<Option<(Option<Inst>, usize)>, OutOfMemory>
    ensures exact { IfOk result (λ found. found ≡ returning_at (naming names.now) ret_ext (seen kept.now)) }
    ensures within { IfOk result (λ found. IfSome found (λ f. f.1 ≤ length kept.now)) }
{
    let (first, rest) = match kept {
        [first, rest @ ..] => (first, rest),
        [] => return Ok(None),
    };
    let found = match first.shape {
        Shape::Returned(ty) => returning_value(alloc, names, ret_ext, ty, rest)?,
        Shape::Void => returning_void(alloc, names, ret_ext, rest)?,
        _ => return Ok(None),
    };
    match found {
        Some((call, count)) => Ok(Some((call, 1 + count))),
        None => Ok(None),
    }
}

/// A call behind its word. `None` in the pair is one that is dropped.
pub fn call(
    alloc: Global,
    names: &Names,
    kept: &[Lexeme],
) -> Result<Option<(Option<Inst>, usize)>, OutOfMemory>
    ensures exact { IfOk result (λ found. found ≡ call_at (naming names.now) (seen kept.now)) }
    ensures within { IfOk result (λ found. IfSome found (λ f. f.1 ≤ length kept.now)) }
{
    let (ext, count) = ext(kept);
    match returning(alloc, names, ext, after(kept, count))? {
        Some((call, more)) => Ok(Some((call, count + more))),
        None => Ok(None),
    }
}

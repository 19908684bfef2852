//! Variables.
ghost use Rattle.std.specs.Prelude.{◌≡◌, None, IfOk};
ghost use Rattle.ir_grammar.specs.Tokens.{seen};
ghost use Rattle.ir_scope.specs.Scopes.{env_of};
ghost use Rattle.ir_parser.specs.Items.{last_align, is_constant, made_var, valued, var_kind, var_linked, var_of};

use crate::heads::is_plain;
use ir_constants::read_constant;
use ir_grammar::{Digits, Lexeme, Shape};
use ir_operands::{after, exponent};
use ir_scope::{Scope, read_type};
use ir_syntax::{Const, Item, Linkage, Var};
use ir_types::{Bytes, OutOfMemory};
use std::alloc::Global;

/// The alignment behind a variable: the last of those that are written.
fn last_align(kept: &[Lexeme]) -> Option<u8>
    ensures { result ≡ last_align None (seen kept.now) }
{
    let mut found = None;
    for lexeme in kept {
        match lexeme.shape {
            Shape::Int(Digits::Power) => found = exponent(lexeme.text),
            _ => return found,
        }
    }
    found
}

fn is_constant(shape: Shape) -> bool
    ensures { result ≡ is_constant shape }
{
    match shape {
        Shape::ConstantWord => true,
        _ => false,
    }
}

/// The variable with this constant or none, and the alignment that stands in front.
fn made(var: Var, init: Option<Const>, kept: &[Lexeme]) -> Item
    ensures { result ≡ made_var var.name var.linkage var.constant var.ty init (seen kept.now) }
{
    Item::Var(Var {
        init,
        align: last_align(kept),
        ..var
    })
}

/// The variable, from its constant on. A declaration has none.
fn valued(
    alloc: Global,
    scope: &Scope,
    var: Var,
    declared: bool,
    kept: &[Lexeme],
) -> Result<Option<Item>, OutOfMemory>
    ensures { IfOk result (λ found. found ≡ valued (env_of scope.now) var.name var.linkage declared var.constant var.ty (seen kept.now)) }
{
    if declared {
        return Ok(Some(made(var, None, kept)));
    }
    match read_constant(alloc, scope, &var.ty, kept)? {
        Some((init, count)) => Ok(Some(made(var, Some(init), after(kept, count)))),
        None => Ok(None),
    }
}

/// The variable, from `global` or `constant` on.
fn variable_kind(
    alloc: Global,
    scope: &Scope,
    name: Bytes,
    linkage: Linkage,
    declared: bool,
    kept: &[Lexeme],
) -> Result<Option<Item>, OutOfMemory>
    ensures { IfOk result (λ found. found ≡ var_kind (env_of scope.now) name linkage declared (seen kept.now)) }
{
    let (kind, kept) = match kept {
        [kind, rest @ ..] => (kind, rest),
        [] => return Ok(None),
    };
    match read_type(alloc, scope, kept)? {
        Some((ty, count)) => {
            let var = Var {
                name,
                linkage,
                constant: is_constant(kind.shape),
                ty,
                init: None,
                align: None,
            };
            valued(alloc, scope, var, declared, after(kept, count))
        }
        None => Ok(None),
    }
}

/// The variable, from its linkage on. One whose linkage is written `external` is a declaration.
fn linked(
    alloc: Global,
    scope: &Scope,
    name: Bytes,
    kept: &[Lexeme],
) -> Result<Option<Item>, OutOfMemory>
    ensures { IfOk result (λ found. found ≡ var_linked (env_of scope.now) name (seen kept.now)) }
{
    match kept {
        [first, rest @ ..] => match first.shape {
            Shape::Linkage(Linkage::External) => {
                variable_kind(alloc, scope, name, Linkage::External, true, rest)
            }
            Shape::Linkage(linkage) => variable_kind(alloc, scope, name, linkage, false, rest),
            _ => variable_kind(alloc, scope, name, Linkage::External, false, kept),
        },
        [] => Ok(None),
    }
}

/// The variable of a name, from behind the name on.
pub(crate) fn variable(
    alloc: Global,
    scope: &Scope,
    name: Bytes,
    kept: &[Lexeme],
) -> Result<Option<Item>, OutOfMemory>
    ensures { IfOk result (λ found. found ≡ var_of (env_of scope.now) name (seen kept.now)) }
{
    if is_plain(name.as_slice()) {
        linked(alloc, scope, name, kept)
    } else {
        Ok(None)
    }
}

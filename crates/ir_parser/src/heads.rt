//! Declarations and definitions of functions.
ghost use Rattle.std.specs.Prelude.{◌≡◌, ◌&&◌, not, IfOk, option_map};
ghost use Rattle.ir_syntax.specs.FormedItem.{is_reserved};
ghost use Rattle.ir_grammar.specs.Tokens.{seen};
ghost use Rattle.ir_scope.specs.Scopes.{env_of};
ghost use Rattle.ir_parser.specs.Items.{is_plain, head_with, head_named, head_returning, head_extended, head_linked, declared, declaration_of, with_body, defined, definition_of};
ghost use Rattle.ir_parser.specs.Mirrors.Steps.{head_of};

use crate::params::{are_params, names, params, types};
use crate::spelling::name;
use ir_body::resolve_body;
use ir_grammar::{Lexeme, Shape};
use ir_operands::{after, ext};
use ir_scope::Scope;
use ir_syntax::{Body, Func, Intrinsic, Item, Linkage};
use ir_types::{Bytes, Ext, OutOfMemory, Scalar, is_name};
use sqlite_items::Items as List;
use std::alloc::Global;

/// A function without its body, the names of its parameters, and what is kept behind its head.
#[derive(Drop)]
pub(crate) struct Head<'a> {
    pub(crate) func: Func,
    pub(crate) names: List<Bytes>,
    pub(crate) rest: &'a [Lexeme<'a>],
}

/// Whether the name begins with `llvm.`.
fn is_reserved(name: &[u8]) -> bool
    ensures { result ≡ is_reserved name.now }
{
    name.starts_with(b"llvm.")
}

/// Whether this is a name of a variable or a definition.
pub(crate) fn is_plain(name: &[u8]) -> bool
    ensures { result ≡ is_plain name.now }
{
    is_name(name) && !is_reserved(name)
}

/// The head of a function of a name, from its parameters on.
fn head_with<'a>(
    alloc: Global,
    name: Bytes,
    linkage: Linkage,
    returns: Option<Scalar>,
    ret_ext: Ext,
    kept: &'a [Lexeme<'a>],
) -> Result<Option<Head<'a>>, OutOfMemory>
    ensures { IfOk result (λ found. option_map head_of found ≡ head_with name linkage returns ret_ext (seen kept.now)) }
{
    let ((written, variadic), count) = match params(alloc, kept)? {
        Some(found) => found,
        None => return Ok(None),
    };
    let names = names(alloc, written.as_slice())?;
    if !are_params(alloc, names.as_slice())? {
        return Ok(None);
    }
    let func = Func {
        name,
        linkage,
        returns,
        ret_ext,
        params: types(alloc, written.as_slice())?,
        variadic,
        body: None,
    };
    Ok(Some(Head {
        func,
        names,
        rest: after(kept, count),
    }))
}

/// The head of a function, from its name on.
fn head_named<'a>(
    alloc: Global,
    linkage: Linkage,
    returns: Option<Scalar>,
    ret_ext: Ext,
    kept: &'a [Lexeme<'a>],
) -> Result<Option<Head<'a>>, OutOfMemory>
    ensures { IfOk result (λ found. option_map head_of found ≡ head_named linkage returns ret_ext (seen kept.now)) }
{
    match kept {
        [first, rest @ ..] => match first.shape {
            Shape::At(_) => {
                head_with(
                    alloc,
                    name(alloc, first.text)?,
                    linkage,
                    returns,
                    ret_ext,
                    rest,
                )
            }
            _ => Ok(None),
        },
        [] => Ok(None),
    }
}

/// The head of a function, from what it returns on.
fn head_returning<'a>(
    alloc: Global,
    linkage: Linkage,
    ret_ext: Ext,
    kept: &'a [Lexeme<'a>],
) -> Result<Option<Head<'a>>, OutOfMemory>
    ensures { IfOk result (λ found. option_map head_of found ≡ head_returning linkage ret_ext (seen kept.now)) }
{
    match kept {
        [first, rest @ ..] => match first.shape {
            Shape::Void => head_named(alloc, linkage, None, ret_ext, rest),
            Shape::Scalar(ty) => head_named(alloc, linkage, Some(ty), ret_ext, rest),
            _ => Ok(None),
        },
        [] => Ok(None),
    }
}

/// The head of a function, from `signext` or `zeroext` or what it returns on.
fn head_extended<'a>(
    alloc: Global,
    linkage: Linkage,
    kept: &'a [Lexeme<'a>],
) -> Result<Option<Head<'a>>, OutOfMemory>
    ensures { IfOk result (λ found. option_map head_of found ≡ head_extended linkage (seen kept.now)) }
{
    let (ext, count) = ext(kept);
    head_returning(alloc, linkage, ext, after(kept, count))
}

/// The head of a definition, external where no linkage is written.
fn head_linked<'a>(alloc: Global, kept: &'a [Lexeme<'a>]) -> Result<Option<Head<'a>>, OutOfMemory>
    ensures { IfOk result (λ found. option_map head_of found ≡ head_linked (seen kept.now)) }
{
    match kept {
        [first, rest @ ..] => match first.shape {
            Shape::Linkage(linkage) => head_extended(alloc, linkage, rest),
            _ => head_extended(alloc, Linkage::External, kept),
        },
        [] => head_extended(alloc, Linkage::External, kept),
    }
}

/// The declaration of a head. Of the names that begin with `llvm.` it has only those of the intrinsics.
fn declared(head: Head) -> Option<Item>
    ensures { result ≡ declared (head_of head.entry) }
{
    let Head { func, .. } = head;
    let name = func.name.as_slice();
    if is_name(name) && (!is_reserved(name) || Intrinsic::of_name(name).is_some()) {
        Some(Item::Func(func))
    } else {
        None
    }
}

/// The declaration that stands behind its word.
pub(crate) fn declaration(alloc: Global, kept: &[Lexeme]) -> Result<Option<Item>, OutOfMemory>
    ensures { IfOk result (λ found. found ≡ declaration_of (seen kept.now)) }
{
    match head_extended(alloc, Linkage::External, kept)? {
        Some(head) => Ok(declared(head)),
        None => Ok(None),
    }
}

/// The function with a body. A definition has no parameters but the written ones.
fn with_body(func: Func, body: Body) -> Item
    ensures { result ≡ with_body func body }
{
    Item::Func(Func {
        variadic: false,
        body: Some(body),
        ..func
    })
}

/// The definition of a head.
fn defined(alloc: Global, scope: &Scope, head: Head) -> Result<Option<Item>, OutOfMemory>
    ensures { IfOk result (λ found. found ≡ defined (env_of scope.now) (head_of head.entry)) }
{
    if !is_plain(head.func.name.as_slice()) {
        return Ok(None);
    }
    match resolve_body(alloc, scope, head.names.as_slice(), head.rest)? {
        Some(body) => Ok(Some(with_body(head.func, body))),
        None => Ok(None),
    }
}

/// The definition that stands behind its word.
pub(crate) fn definition(
    alloc: Global,
    scope: &Scope,
    kept: &[Lexeme],
) -> Result<Option<Item>, OutOfMemory>
    ensures { IfOk result (λ found. found ≡ definition_of (env_of scope.now) (seen kept.now)) }
{
    match head_linked(alloc, kept)? {
        Some(head) => defined(alloc, scope, head),
        None => Ok(None),
    }
}

//! Constants that one lexeme spells.
ghost use Rattle.std.specs.Prelude.{◌≡◌, ◌&&◌, nat_eq, length, drop, pos, Some, None, option_map, IfOk, if◌then◌else◌};
ghost use Rattle.ir_types.specs.declared.shape.Ty.{out-Ty};
ghost use Rattle.ir_syntax.specs.declared.constant.Const.TheBlock.{Int, Null, Addr, Text};
ghost use Rattle.ir_lexer.specs.Texts.{name_of};
ghost use Rattle.ir_syntax.specs.Suits.{is_byte, is_pointer};
ghost use Rattle.ir_scope.specs.Integers.{number};
ghost use Rattle.ir_scope.specs.Scopes.{env_of};
ghost use Rattle.ir_constants.specs.Constants.{symbol_at, zero_of, scalar_of, array_of, struct_of, single, is_pointer_type, text_bytes};
ghost use Rattle.ir_constants.specs.Mirrors.Singles.{defined};

use crate::symbols::{place_of, text_bytes};
use ir_grammar::{Lexeme, Shape, Value};
use ir_scope::{Scope, read_number};
use ir_syntax::Const;
use ir_types::{OutOfMemory, Scalar, Ty};
use std::alloc::Global;

fn is_pointer(ty: Scalar) -> bool
    ensures { result ≡ is_pointer ty }
{
    match ty {
        Scalar::Ptr => true,
        _ => false,
    }
}

/// Whether the type is a pointer.
pub fn is_pointer_type(ty: &Ty) -> bool
    ensures { result ≡ is_pointer_type (out-Ty ty.now) }
{
    match ty {
        Ty::One(scalar) => is_pointer(*scalar),
        Ty::Array(_, _) => false,
        Ty::Struct(_) => false,
    }
}

/// Whether the type is that of a byte.
fn is_byte(ty: &Ty) -> bool
    ensures { result ≡ is_byte (out-Ty ty.now) }
{
    match ty {
        Ty::One(Scalar::I8) => true,
        _ => false,
    }
}

/// Zero, or null.
fn zero_of(ty: Scalar) -> Const
    ensures { result ≡ zero_of ty }
{
    if is_pointer(ty) {
        Const::Null
    } else {
        Const::Int(0)
    }
}

/// Null, at a pointer.
fn null_at(ty: Scalar) -> Option<Const>
    ensures { result ≡ (if is_pointer ty then Some Null else None) }
{
    if is_pointer(ty) {
        Some(Const::Null)
    } else {
        None
    }
}

/// The address of the symbol that `@name` names, at a pointer.
fn symbol_at(
    alloc: Global,
    scope: &Scope,
    ty: Scalar,
    text: &[u8],
) -> Result<Option<Const>, OutOfMemory>
    ensures { IfOk result (λ found. found ≡ (if is_pointer ty then option_map (λ place. Addr place (pos 0)) (symbol_at scope.now.symbols (name_of (drop 1 text.now))) else None)) }
{
    if !is_pointer(ty) {
        return Ok(None);
    }
    match place_of(alloc, scope, text)? {
        Some(place) => Ok(Some(Const::Addr(place, 0))),
        None => Ok(None),
    }
}

/// A number, at an integer type.
fn number_at(ty: Scalar, lexeme: &Lexeme) -> Option<Const>
    ensures { result ≡ option_map (λ n. Int n) (number ty (lexeme.now.shape, lexeme.now.text.now)) }
{
    match read_number(ty, lexeme) {
        Some(number) => Some(Const::Int(number)),
        None => None,
    }
}

/// The constant, at a scalar.
fn scalar_of(
    alloc: Global,
    scope: &Scope,
    ty: Scalar,
    lexeme: &Lexeme,
) -> Result<Option<Const>, OutOfMemory>
    ensures { IfOk result (λ found. found ≡ scalar_of (env_of scope.now) ty (lexeme.now.shape, lexeme.now.text.now)) }
{
    match lexeme.shape {
        Shape::Value(Value::Null) => Ok(null_at(ty)),
        Shape::Value(Value::Zero) => Ok(Some(zero_of(ty))),
        Shape::At(_) => symbol_at(alloc, scope, ty, lexeme.text),
        _ => Ok(number_at(ty, lexeme)),
    }
}

/// `c"text"`, at so many bytes.
fn text_at(
    alloc: Global,
    count: u64,
    element: &Ty,
    text: &[u8],
) -> Result<Option<Const>, OutOfMemory>
    ensures { IfOk result (λ found. found ≡ (if is_byte (out-Ty element.now) && nat_eq (length (text_bytes text.now)) count then Some (Text (text_bytes text.now)) else None)) }
{
    if !is_byte(element) {
        return Ok(None);
    }
    let bytes = text_bytes(alloc, text)?;
    if bytes.len() as u64 == count {
        Ok(Some(Const::Text(bytes)))
    } else {
        Ok(None)
    }
}

/// The constant, at an array.
fn array_of(
    alloc: Global,
    count: u64,
    element: &Ty,
    lexeme: &Lexeme,
) -> Result<Option<Const>, OutOfMemory>
    ensures { IfOk result (λ found. found ≡ array_of count element.now (lexeme.now.shape, lexeme.now.text.now)) }
{
    match lexeme.shape {
        Shape::Value(Value::Zero) => Ok(Some(Const::Zero)),
        Shape::CStr => text_at(alloc, count, element, lexeme.text),
        _ => Ok(None),
    }
}

/// The constant, at a struct.
fn struct_of(lexeme: &Lexeme) -> Option<Const>
    ensures { result ≡ struct_of (lexeme.now.shape, lexeme.now.text.now) }
{
    match lexeme.shape {
        Shape::Value(Value::Zero) => Some(Const::Zero),
        _ => None,
    }
}

/// The constant that isn't `undef` or `poison`, at a type.
fn defined(
    alloc: Global,
    scope: &Scope,
    ty: &Ty,
    lexeme: &Lexeme,
) -> Result<Option<Const>, OutOfMemory>
    ensures { IfOk result (λ found. found ≡ defined (env_of scope.now) (out-Ty ty.now) (lexeme.now.shape, lexeme.now.text.now)) }
{
    match ty {
        Ty::One(scalar) => scalar_of(alloc, scope, *scalar, lexeme),
        Ty::Array(count, element) => array_of(alloc, *count, element.get(), lexeme),
        Ty::Struct(_) => Ok(struct_of(lexeme)),
    }
}

/// The constant that one lexeme spells, at a type.
pub fn single(
    alloc: Global,
    scope: &Scope,
    ty: &Ty,
    lexeme: &Lexeme,
) -> Result<Option<Const>, OutOfMemory>
    ensures { IfOk result (λ found. found ≡ single (env_of scope.now) (out-Ty ty.now) (lexeme.now.shape, lexeme.now.text.now)) }
{
    match lexeme.shape {
        Shape::Value(Value::Undef) => Ok(Some(Const::Undef)),
        Shape::Value(Value::Poison) => Ok(Some(Const::Poison)),
        _ => defined(alloc, scope, ty, lexeme),
    }
}

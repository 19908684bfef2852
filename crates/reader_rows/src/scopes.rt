//! Rows of `ir_scope`.
use crate::answer::{Answer, is_so, number, place};
use crate::row::number_of;
use crate::words::{lexemes, scalar};
use ir_scope::{
    Scope, ScopeFault, extend, read_number, read_type, same_type, same_type_is_equality,
};
use ir_types::{Bytes, List, OutOfMemory, Scalar, Ty};
use std::alloc::Global;

/// What is found for a row.
pub fn answer(alloc: Global, fields: &[&str]) -> Result<Answer, OutOfMemory> {
    match fields {
        ["integer", ty, text] => Ok(number(integer(alloc, scalar(*ty), *text)?)),
        ["extended", ty, text] => Ok(number(extended(alloc, scalar(*ty), *text)?)),
        ["doubled", one, other] => doubled(alloc, *one, *other),
        _ => look_up(alloc, fields),
    }
}

/// The number of a type.
fn integer(alloc: Global, ty: Scalar, text: &str) -> Result<Option<u64>, OutOfMemory> {
    match lexemes(alloc, text)?.as_slice() {
        [lexeme, ..] => Ok(read_number(ty, lexeme)),
        [] => Ok(None),
    }
}

/// A number of a type at 64 bits.
fn extended(alloc: Global, ty: Scalar, text: &str) -> Result<Option<u64>, OutOfMemory> {
    match lexemes(alloc, text)?.as_slice() {
        [lexeme, ..] => match read_number(ty, lexeme) {
            Some(number) => Ok(Some(extend(ty, number))),
            None => Ok(None),
        },
        [] => Ok(None),
    }
}

/// The scope of one named type, `t`, a pointer, and of one symbol, an intrinsic.
fn scope(alloc: Global) -> Result<Scope, OutOfMemory> {
    let mut types = List::new(alloc);
    types.push((Bytes::from_slice(alloc, b"t")?, Ty::One(Scalar::Ptr)))?;
    let mut symbols = List::new(alloc);
    symbols.push(Bytes::from_slice(alloc, b"llvm.memset.p0.i64")?)?;
    Scope::first_of(alloc, types, symbols)
}

/// What is found in that scope.
fn look_up(alloc: Global, fields: &[&str]) -> Result<Answer, OutOfMemory> {
    let scope = scope(alloc)?;
    same_type_is_equality();
    match fields {
        ["symbol", name] => Ok(place(scope.lookup_symbol(name.as_bytes()))),
        ["type", name] => Ok(is_so(scope.lookup_type(name.as_bytes()).is_some())),
        ["intrinsic", place] => Ok(is_so(scope.is_intrinsic(number_of(*place)))),
        ["symbol count"] => Ok(Answer::Place(scope.symbol_count())),
        ["two pointers", words] => two_pointers(alloc, &scope, *words),
        _ => Ok(Answer::NoRow),
    }
}

/// Whether words are read, all of them, as an array of two pointers.
fn two_pointers(alloc: Global, scope: &Scope, words: &str) -> Result<Answer, OutOfMemory> {
    let kept = lexemes(alloc, words)?;
    match read_type(alloc, scope, kept.as_slice())? {
        Some((ty, taken)) => Ok(is_so(taken == kept.len() && are_two_pointers(&ty))),
        None => Ok(Answer::None),
    }
}

fn are_two_pointers(ty: &Ty) -> bool {
    match ty {
        Ty::Array(count, element) => *count == 2 && same_type(element.get(), &Ty::One(Scalar::Ptr)),
        Ty::One(_) => false,
        Ty::Struct(_) => false,
    }
}

/// The place of the first doubled name of a scope of two symbols.
fn doubled(alloc: Global, one: &str, other: &str) -> Result<Answer, OutOfMemory> {
    let mut symbols = List::new(alloc);
    symbols.push(Bytes::from_slice(alloc, one.as_bytes())?)?;
    symbols.push(Bytes::from_slice(alloc, other.as_bytes())?)?;
    match Scope::new(alloc, List::new(alloc), symbols) {
        Ok(_) => Ok(Answer::None),
        Err(ScopeFault::Doubled { at }) => Ok(Answer::Place(at)),
        Err(ScopeFault::OutOfMemory) => Err(OutOfMemory),
    }
}

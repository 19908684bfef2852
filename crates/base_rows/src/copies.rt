//! Copies of bytes, types and modules.
use crate::failed::Failed;
use crate::fixtures::pairs;
use crate::instructions::{func, module};
use ir_syntax::{Func, Item, Module, Var};
use ir_types::{Bytes, Copied, FnType, Known, List, OutOfMemory, Scalar, align_of, size_of};
use std::alloc::Global;

pub fn print_rows<R: Print + AllocGlobal>(rt: &R) -> Result<(), Failed> {
    print_bytes(rt)?;
    print_types(rt)?;
    print_functions(rt)?;
    print_modules(rt)
}

/// The bytes `abcde`, put together.
fn letters(alloc: Global) -> Result<Bytes, OutOfMemory> {
    let mut text = Bytes::from_slice(alloc, b"ab")?;
    text.push(b'c')?;
    text.append(b"de")?;
    Ok(text)
}

/// How long the copy of a list of names is.
fn copied_names(alloc: Global, text: Bytes) -> Result<usize, OutOfMemory> {
    let mut names = List::new(alloc);
    names.push((text, Some(3u64)))?;
    let names = names.copied(alloc)?;
    Ok(names.len())
}

fn print_bytes<R: Print + AllocGlobal>(rt: &R) -> Result<(), Failed> {
    let alloc = rt.alloc();
    let text = letters(alloc)?;
    let copy = text.copy(alloc)?;
    let is_made = text.as_slice() == b"abcde".as_slice();
    let is_copied = copy.as_slice() == b"abcde".as_slice();
    let count = copied_names(alloc, text)?;
    println!(rt; "bytes are abcde: {is_made}")?;
    println!(rt; "copied bytes are abcde: {is_copied}")?;
    println!(rt; "copied list of names: {count}")?;
    Ok(())
}

/// `i32 (ptr, ...)`, or without the dots.
fn function_type(alloc: Global, variadic: bool) -> Result<FnType, OutOfMemory> {
    let mut params = List::new(alloc);
    params.push(Scalar::Ptr)?;
    Ok(FnType {
        params,
        variadic,
        returns: Some(Scalar::I32),
    })
}

fn print_types<R: Print + AllocGlobal>(rt: &R) -> Result<(), Failed> {
    let alloc = rt.alloc();
    let ty = pairs(alloc)?.copied(alloc)?;
    let size = size_of(&ty);
    let align = align_of(&ty);
    println!(rt; "copied [2 x {{ i8, i32 }}]: size {size:?}, align {align}")?;
    let fn_ty = function_type(alloc, true)?;
    let copy = fn_ty.copied(alloc)?;
    let fixed = function_type(alloc, false)?;
    let is_same = copy.is_same(&fn_ty);
    let is_fixed = fixed.is_same(&fn_ty);
    let number = Known::Num(7).copied(alloc)?;
    println!(rt; "copied i32 (ptr, ...): {copy:?}")?;
    println!(rt; "copied i32 (ptr, ...) is the same: {is_same}")?;
    println!(rt; "i32 (ptr) is i32 (ptr, ...): {is_fixed}")?;
    println!(rt; "copied number 7: {number:?}")?;
    Ok(())
}

fn print_functions<R: Print + AllocGlobal>(rt: &R) -> Result<(), Failed> {
    let copy = func(rt.alloc())?.copy(rt.alloc())?;
    print_function(rt, &copy)
}

fn print_function<R: Print>(rt: &R, copy: &Func) -> Result<(), Failed> {
    let is_named = copy.name.as_slice() == b"f".as_slice();
    let params = copy.params.len();
    let linkage = copy.linkage;
    println!(rt; "copied function is f: {is_named}")?;
    println!(rt; "copied function's parameters: {params}")?;
    println!(rt; "copied function's linkage: {linkage:?}")?;
    Ok(())
}

fn print_modules<R: Print + AllocGlobal>(rt: &R) -> Result<(), Failed> {
    let copy = module(rt.alloc())?.copy(rt.alloc())?;
    print_module(rt, &copy)
}

fn print_module<R: Print>(rt: &R, copy: &Module) -> Result<(), Failed> {
    let has_layout = copy.layout.is_some();
    let items = copy.items.len();
    println!(rt; "copied module's layout is there: {has_layout}")?;
    println!(rt; "copied module's items: {items}")?;
    match copy.items.get(1) {
        Some(Item::Var(var)) => print_variable(rt, var),
        Some(Item::Func(_)) => Ok(()),
        None => Ok(()),
    }
}

fn print_variable<R: Print>(rt: &R, var: &Var) -> Result<(), Failed> {
    let is_named = var.name.as_slice() == b"v".as_slice();
    let init = &var.init;
    println!(rt; "copied variable is v: {is_named}")?;
    println!(rt; "copied variable's constant: {init:?}")?;
    Ok(())
}

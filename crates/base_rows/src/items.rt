//! Types of functions, and what items and constants name.
use crate::failed::Failed;
use crate::instructions::{func, module};
use ir_syntax::{Const, Func, Item};
use ir_types::{FnType, List, OutOfMemory, Scalar};
use std::alloc::Global;

pub fn print_rows<R: Print + AllocGlobal>(rt: &R) -> Result<(), Failed> {
    let func = func(rt.alloc())?;
    print_type(rt, &func)?;
    let module = module(rt.alloc())?;
    for item in module.items.as_slice() {
        print_item(rt, item)?;
    }
    print_constant(rt)
}

/// `i8 ()`.
fn other_type(alloc: Global) -> FnType {
    FnType {
        params: List::new(alloc),
        variadic: false,
        returns: Some(Scalar::I8),
    }
}

fn print_type<R: Print + AllocGlobal>(rt: &R, func: &Func) -> Result<(), Failed> {
    let ty = func.fn_type(rt.alloc())?;
    let other = other_type(rt.alloc());
    let is_own = func.has_type(&ty);
    let is_other = func.has_type(&other);
    println!(rt; "type of f: {ty:?}")?;
    println!(rt; "f has its type: {is_own}")?;
    println!(rt; "f has another type: {is_other}")?;
    Ok(())
}

fn print_item<R: Print + AllocGlobal>(rt: &R, item: &Item) -> Result<(), Failed> {
    let named = item.add_names(List::new(rt.alloc()))?;
    println!(rt; "names of an item: {named:?}")?;
    Ok(())
}

/// A constant that names items 3, 2 and 3.
fn constant(alloc: Global) -> Result<Const, OutOfMemory> {
    let mut parts = List::new(alloc);
    parts.push(Const::Addr(3, 8))?;
    parts.push(Const::Null)?;
    parts.push(Const::Addr(2, 0))?;
    parts.push(Const::Addr(3, 0))?;
    Ok(Const::Many(parts))
}

fn print_constant<R: Print + AllocGlobal>(rt: &R) -> Result<(), Failed> {
    let constant = constant(rt.alloc())?;
    let named = constant.add_names(List::new(rt.alloc()))?;
    println!(rt; "names of a constant: {named:?}")?;
    Ok(())
}

//! Built-in functions and intrinsics.
use crate::failed::Failed;
use crate::print_row;
use ir_syntax::{Builtin, Intrinsic};

/// Names of built-in functions, of intrinsics and of neither.
const NAMES: [&str; 11] = [
    "malloc",
    "calloc",
    "free",
    "exit",
    "abort",
    "mallo",
    "mallocs",
    "llvm.memcpy.p0.p0.i64",
    "llvm.memmove.p0.p0.i64",
    "llvm.memset.p0.i64",
    "llvm.memset.p0.i32",
];

pub fn print_rows<R: Print + AllocGlobal>(rt: &R) -> Result<(), Failed> {
    for name in NAMES {
        print_name(rt, name)?;
    }
    Ok(())
}

/// Prints what has the name, whether its own name is this one, and its type.
fn print_name<R: Print + AllocGlobal>(rt: &R, name: &str) -> Result<(), Failed> {
    let alloc = rt.alloc();
    match Builtin::of_name(name.as_bytes()) {
        Some(builtin) => {
            print_row(rt, name, &builtin)?;
            print_row(rt, name, &(builtin.name() == name.as_bytes()))?;
            print_row(rt, name, &builtin.fn_type(alloc)?)?;
        }
        None => {}
    }
    match Intrinsic::of_name(name.as_bytes()) {
        Some(intrinsic) => {
            print_row(rt, name, &intrinsic)?;
            print_row(rt, name, &(intrinsic.name() == name.as_bytes()))?;
            print_row(rt, name, &intrinsic.fn_type(alloc)?)?;
        }
        None => {}
    }
    if Builtin::of_name(name.as_bytes()).is_none()
        && Intrinsic::of_name(name.as_bytes()).is_none()
    {
        print_row(rt, name, &"neither")?;
    }
    Ok(())
}

//! Walks into types.
use crate::failed::Failed;
use crate::fixtures::{none_of_too_wide, pairs, small};
use crate::print_row;
use ir_types::{Index, Ty, walk_indices};

/// Prints how many strides a walk has, and each of them, or why it has none.
fn print_walk<R: Print + AllocGlobal>(
    rt: &R,
    name: &str,
    ty: &Ty,
    indices: &[Index],
) -> Result<(), Failed> {
    match walk_indices(rt.alloc(), ty, indices) {
        Ok(strides) => {
            print_row(rt, name, &strides.len())?;
            for stride in strides.as_slice() {
                print_row(rt, name, stride)?;
            }
        }
        Err(fault) => print_row(rt, name, &fault)?,
    }
    Ok(())
}

pub fn print_rows<R: Print + AllocGlobal>(rt: &R) -> Result<(), Failed> {
    print_wide(rt)?;
    print_small(rt)?;
    print_pairs(rt)
}

fn print_wide<R: Print + AllocGlobal>(rt: &R) -> Result<(), Failed> {
    let none = none_of_too_wide(rt.alloc())?;
    print_walk(rt, "too wide, no index", &none, &[])?;
    let first = [Index::Num(0), Index::Num(0)];
    print_walk(rt, "too wide, 0 0", &none, &first)?;
    let lost = [Index::Num(0), Index::Num(0), Index::Num(0), Index::Num(0)];
    print_walk(rt, "too wide, 0 0 0 0", &none, &lost)
}

fn print_small<R: Print + AllocGlobal>(rt: &R) -> Result<(), Failed> {
    let small = small(rt.alloc())?;
    let over = [Index::Num(0), Index::Num(2)];
    print_walk(rt, "{ i8, i32 }, 0 2", &small, &over)?;
    let under = [Index::Num(0), Index::Num(-1)];
    print_walk(rt, "{ i8, i32 }, 0 -1", &small, &under)?;
    let by_register = [Index::Register, Index::Register, Index::Num(0)];
    print_walk(rt, "{ i8, i32 }, register register 0", &small, &by_register)?;
    print_walk(rt, "{ i8, i32 }, register", &small, &[Index::Register])
}

fn print_pairs<R: Print + AllocGlobal>(rt: &R) -> Result<(), Failed> {
    let pairs = pairs(rt.alloc())?;
    let walk = [Index::Num(0), Index::Num(1), Index::Num(1)];
    print_walk(rt, "[2 x { i8, i32 }], 0 1 1", &pairs, &walk)?;
    print_walk(rt, "[2 x { i8, i32 }], no index", &pairs, &[])?;
    let too_far = [Index::Num(0), Index::Register, Index::Num(1), Index::Num(0)];
    print_walk(rt, "[2 x { i8, i32 }], 0 register 1 0", &pairs, &too_far)
}

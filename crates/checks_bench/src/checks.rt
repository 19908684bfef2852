//! What the two checks say of a function.

use crate::bodies::blocks_of;
use crate::refusal::Refusal;
use crate::shape::Shape;
use ir_check::first_ill_typed;
use ir_paths::{PathFault, check_items};
use ir_syntax::{Block, Body, Func, Item, Linkage, Param};
use ir_types::{Bytes, Ext, OutOfMemory, Scalar};
use sqlite_items::Items as List;
use std::alloc::Global;
use std::fmt;

/// What the checks say of the function of a shape and a size.
#[derive(Clone, Copy, Debug, PartialEq, Eq)]
pub struct Report {
    pub shape: Shape,
    pub size: u32,
    /// Whether the function is well typed.
    pub typed: bool,
    /// Whether each register is defined before it is used, on every path.
    pub definite: bool,
}

impl fmt::Display for Report {
    fn fmt<W: fmt::Write>(&self, f: &mut fmt::Formatter<W>) -> fmt::Result {
        let typed = if self.typed { "typed" } else { "ill-typed" };
        let definite = if self.definite {
            "definite"
        } else {
            "not-definite"
        };
        write!(f, "{} {} {typed} {definite}", self.shape, self.size)
    }
}

/// Builds the function of a shape and a size, and runs both checks over the module of it alone. `OutOfMemory` comes
/// where memory is refused.
pub fn checked(alloc: Global, shape: Shape, size: u32) -> Result<Report, Refusal> {
    let items = items_of(alloc, blocks_of(alloc, shape, size)?)?;
    let typed = first_ill_typed(alloc, items.as_slice())?.is_none();
    let definite = is_definite(alloc, items.as_slice())?;
    Ok(Report {
        shape,
        size,
        typed,
        definite,
    })
}

fn is_definite(alloc: Global, items: &[Item]) -> Result<bool, OutOfMemory> {
    match check_items(alloc, items) {
        Ok(()) => Ok(true),
        Err(PathFault::NotDefinite { .. }) => Ok(false),
        Err(PathFault::OutOfMemory) => Err(OutOfMemory),
    }
}

/// A module's items: the one function `i32 @f(i1, i32)` with these blocks.
fn items_of(alloc: Global, blocks: List<Block>) -> Result<List<Item>, OutOfMemory> {
    let types = [Scalar::I1, Scalar::I32];
    let func = Func {
        name: Bytes::from_slice(alloc, b"f".as_slice())?,
        linkage: Linkage::External,
        returns: Some(Scalar::I32),
        ret_ext: Ext::Plain,
        params: params(alloc, types.as_slice())?,
        variadic: false,
        body: Some(Body { blocks }),
    };
    let mut items = List::new(alloc);
    items.push(Item::Func(func))?;
    Ok(items)
}

fn params(alloc: Global, types: &[Scalar]) -> Result<List<Param>, OutOfMemory> {
    let mut params = List::new(alloc);
    for ty in types {
        params.push(Param {
            ty: *ty,
            ext: Ext::Plain,
        })?;
    }
    Ok(params)
}

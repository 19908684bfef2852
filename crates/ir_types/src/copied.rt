//! Values that can be made again, and the copies of lists, options and pairs.
ghost use Rattle.std.specs.Prelude.{◌≡◌, ◌++◌, drop, take, IfOk};

use crate::{
    BinOp, Bytes, CastOp, Ext, Flags, FnType, Index, Known, OutOfMemory, Pred, Scalar, Stride, Ty,
};
use sqlite_items::{Boxed, Items as List};
use std::alloc::Global;

/// A value that can be made again. The copy is the value: contracts can't tell the two apart.
pub trait Copied: Drop + Sized {
    fn copied(&self, alloc: Global) -> Result<Self, OutOfMemory>
        ensures { IfOk result (λ copy. copy ≡ self.now) };
}

impl Copied for Bytes {
    fn copied(&self, alloc: Global) -> Result<Bytes, OutOfMemory> {
        self.copy(alloc)
    }
}

impl Copied for u64 {
    fn copied(&self, _alloc: Global) -> Result<u64, OutOfMemory> {
        Ok(*self)
    }
}

impl Copied for usize {
    fn copied(&self, _alloc: Global) -> Result<usize, OutOfMemory> {
        Ok(*self)
    }
}

impl Copied for Scalar {
    fn copied(&self, _alloc: Global) -> Result<Scalar, OutOfMemory> {
        Ok(*self)
    }
}

impl Copied for u8 {
    fn copied(&self, _alloc: Global) -> Result<u8, OutOfMemory> {
        Ok(*self)
    }
}

impl Copied for bool {
    fn copied(&self, _alloc: Global) -> Result<bool, OutOfMemory> {
        Ok(*self)
    }
}

impl Copied for i64 {
    fn copied(&self, _alloc: Global) -> Result<i64, OutOfMemory> {
        Ok(*self)
    }
}

impl Copied for Ext {
    fn copied(&self, _alloc: Global) -> Result<Ext, OutOfMemory> {
        Ok(*self)
    }
}

impl Copied for Known {
    fn copied(&self, _alloc: Global) -> Result<Known, OutOfMemory> {
        Ok(*self)
    }
}

impl Copied for BinOp {
    fn copied(&self, _alloc: Global) -> Result<BinOp, OutOfMemory> {
        Ok(*self)
    }
}

impl Copied for Flags {
    fn copied(&self, _alloc: Global) -> Result<Flags, OutOfMemory> {
        Ok(*self)
    }
}

impl Copied for Pred {
    fn copied(&self, _alloc: Global) -> Result<Pred, OutOfMemory> {
        Ok(*self)
    }
}

impl Copied for CastOp {
    fn copied(&self, _alloc: Global) -> Result<CastOp, OutOfMemory> {
        Ok(*self)
    }
}

impl Copied for Index {
    fn copied(&self, _alloc: Global) -> Result<Index, OutOfMemory> {
        Ok(*self)
    }
}

impl Copied for Stride {
    fn copied(&self, _alloc: Global) -> Result<Stride, OutOfMemory> {
        Ok(*self)
    }
}

impl Copied for FnType {
    fn copied(&self, alloc: Global) -> Result<FnType, OutOfMemory> {
        Ok(FnType {
            params: self.params.copied(alloc)?,
            variadic: self.variadic,
            returns: self.returns,
        })
    }
}

/// A copy of a type. It recurses as deep as the type nests.
fn copied_type(ty: &Ty, alloc: Global) -> Result<Ty, OutOfMemory>
    ensures { IfOk result (λ copy. copy ≡ ty.now) }
{
    match ty {
        Ty::One(scalar) => Ok(Ty::One(*scalar)),
        Ty::Array(count, element) => {
            let element = copied_type(element.get(), alloc)?;
            Ok(Ty::Array(*count, Boxed::new(alloc, element)?))
        }
        Ty::Struct(fields) => {
            let mut copies = List::new(alloc);
            for field in fields.as_slice() {
                copies.push(copied_type(field, alloc)?)?;
            }
            Ok(Ty::Struct(copies))
        }
    }
}

impl Copied for Ty {
    fn copied(&self, alloc: Global) -> Result<Ty, OutOfMemory> {
        copied_type(self, alloc)
    }
}

impl<T: Copied> Copied for Option<T> {
    fn copied(&self, alloc: Global) -> Result<Option<T>, OutOfMemory> {
        match self {
            Some(value) => Ok(Some(value.copied(alloc)?)),
            None => Ok(None),
        }
    }
}

impl<A: Copied, B: Copied> Copied for (A, B) {
    fn copied(&self, alloc: Global) -> Result<(A, B), OutOfMemory> {
        let first = self.0.copied(alloc)?;
        let second = self.1.copied(alloc)?;
        Ok((first, second))
    }
}

impl<T: Copied> Copied for List<T> {
    fn copied(&self, alloc: Global) -> Result<List<T>, OutOfMemory> {
        let mut copy = List::new(alloc);
        for item in self.as_slice() {
            copy.push(item.copied(alloc)?)?;
        }
        Ok(copy)
    }
}

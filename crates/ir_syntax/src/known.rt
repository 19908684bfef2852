//! Built-in functions and intrinsics by their names, and their types.
ghost use Rattle.std.specs.Prelude.{◌≡◌, ◌↔◌, IsTrue, IfOk, IfSome, is_some};
ghost use Rattle.ir_syntax.specs.Builtins.{builtin_name, builtin_named, type_of_builtin};
ghost use Rattle.ir_syntax.specs.Intrinsics.{intrinsic_name, intrinsic_named, is_intrinsic, intrinsic_type, type_of_intrinsic};

use crate::{Builtin, Intrinsic};
use ir_types::{FnType, OutOfMemory, Scalar};
use sqlite_items::Items as List;
use std::alloc::Global;

impl Builtin {
    /// The function's name: `malloc`, `calloc`, `free`, `exit` or `abort`.
    pub fn name(self) -> &'static [u8]
        ensures { result.now ≡ builtin_name self }
    {
        match self {
            Builtin::Malloc => b"malloc",
            Builtin::Calloc => b"calloc",
            Builtin::Free => b"free",
            Builtin::Exit => b"exit",
            Builtin::Abort => b"abort",
        }
    }

    /// The function that has the name. `None` comes where no built-in function has it.
    pub fn of_name(name: &[u8]) -> Option<Builtin>
        ensures { result ≡ builtin_named name.now }
    {
        if name == Builtin::Malloc.name() {
            return Some(Builtin::Malloc);
        }
        if name == Builtin::Calloc.name() {
            return Some(Builtin::Calloc);
        }
        if name == Builtin::Free.name() {
            return Some(Builtin::Free);
        }
        if name == Builtin::Exit.name() {
            return Some(Builtin::Exit);
        }
        if name == Builtin::Abort.name() {
            return Some(Builtin::Abort);
        }
        None
    }

    /// The types of the function's parameters.
    fn params(self) -> &'static [Scalar]
        ensures { result.now ≡ (type_of_builtin self).params }
    {
        match self {
            Builtin::Malloc => &[Scalar::I64],
            Builtin::Calloc => &[Scalar::I64, Scalar::I64],
            Builtin::Free => &[Scalar::Ptr],
            Builtin::Exit => &[Scalar::I32],
            Builtin::Abort => &[],
        }
    }

    /// The type of what the function returns.
    fn returns(self) -> Option<Scalar>
        ensures { result ≡ (type_of_builtin self).returns }
    {
        match self {
            Builtin::Malloc => Some(Scalar::Ptr),
            Builtin::Calloc => Some(Scalar::Ptr),
            Builtin::Free => None,
            Builtin::Exit => None,
            Builtin::Abort => None,
        }
    }

    /// The function's type: `ptr (i64)` of `malloc`, `ptr (i64, i64)` of `calloc`, `void (ptr)` of `free`, `void (i32)`
    /// of `exit` and `void ()` of `abort`. The error is want of memory.
    pub fn fn_type(self, alloc: Global) -> Result<FnType, OutOfMemory>
        ensures { IfOk result (λ ty. ty ≡ type_of_builtin self) }
    {
        Ok(FnType {
            params: List::from_slice(alloc, self.params())?,
            variadic: false,
            returns: self.returns(),
        })
    }
}

impl Intrinsic {
    /// The intrinsic's name: `llvm.memcpy.p0.p0.i64`, `llvm.memmove.p0.p0.i64` or `llvm.memset.p0.i64`.
    pub fn name(self) -> &'static [u8]
        ensures { result.now ≡ intrinsic_name self }
    {
        match self {
            Intrinsic::Memcpy => b"llvm.memcpy.p0.p0.i64",
            Intrinsic::Memmove => b"llvm.memmove.p0.p0.i64",
            Intrinsic::Memset => b"llvm.memset.p0.i64",
        }
    }

    /// The intrinsic that has the name. `None` comes where no intrinsic of the subset has it.
    pub fn of_name(name: &[u8]) -> Option<Intrinsic>
        ensures value { result ≡ intrinsic_named name.now }
        ensures known { is_some result ≡ is_intrinsic name.now }
        ensures typed { IfSome result (λ intrinsic. type_of_intrinsic intrinsic ≡ intrinsic_type name.now) }
    {
        if name == Intrinsic::Memcpy.name() {
            return Some(Intrinsic::Memcpy);
        }
        if name == Intrinsic::Memmove.name() {
            return Some(Intrinsic::Memmove);
        }
        if name == Intrinsic::Memset.name() {
            return Some(Intrinsic::Memset);
        }
        None
    }

    /// The types of the intrinsic's parameters.
    fn params(self) -> &'static [Scalar]
        ensures { result.now ≡ (type_of_intrinsic self).params }
    {
        match self {
            Intrinsic::Memcpy => &[Scalar::Ptr, Scalar::Ptr, Scalar::I64, Scalar::I1],
            Intrinsic::Memmove => &[Scalar::Ptr, Scalar::Ptr, Scalar::I64, Scalar::I1],
            Intrinsic::Memset => &[Scalar::Ptr, Scalar::I8, Scalar::I64, Scalar::I1],
        }
    }

    /// The intrinsic's type: `void (ptr, ptr, i64, i1)` of a copy, and `void (ptr, i8, i64, i1)` of a fill. The error is
    /// want of memory.
    pub fn fn_type(self, alloc: Global) -> Result<FnType, OutOfMemory>
        ensures { IfOk result (λ ty. ty ≡ type_of_intrinsic self) }
    {
        Ok(FnType {
            params: List::from_slice(alloc, self.params())?,
            variadic: false,
            returns: None,
        })
    }
}

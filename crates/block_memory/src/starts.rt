//! The memory that a program starts with.
ghost use Rattle.std.specs.Prelude.{◌≡◌, ◌+◌, ◌*◌, ◌^◌, ◌<◌, ◌≤◌, IfOk, Some, IsSome, IsTrue, true, false, map, length, slice_get, option_map};
ghost use Rattle.std.specs.List.{list_all};
ghost use Rattle.ir_types.specs.Layout.{size, align, round_up, extent, struct_size, struct_width};
ghost use Rattle.ir_syntax.specs.FormedItem.{FormedItem, FormedVar};
ghost use Rattle.ir_syntax.specs.InitialBytes.{parts_in, initial_parts, initial_bytes};
ghost use Rattle.ir_syntax.specs.Programs.{IsProgram};
ghost use Rattle.ir_syntax.specs.Suits.{Suits, suits, takes_parts, each_takes};
ghost use Rattle.ir_syntax.specs.Typed.{IsNarrow, TypedItem};
ghost use Rattle.ir_types.specs.declared.shape.Ty.{out-Ty};
ghost use Rattle.ir_types.specs.declared.shape.Ty.TheBlock.{One};
ghost use Rattle.ir_syntax.specs.Symbols.{item_at};
ghost use Rattle.block_memory.specs.declared.value.Part.TheVariants as part;
ghost use Rattle.block_memory.specs.Mirrors.Laying.{IsLaid, elements, fields_behind, items_in, is_scalar, address_at};
ghost use Rattle.block_memory.specs.Mirrors.Writing.{set_from};
ghost use Rattle.block_memory.specs.Starts as starts;
ghost use Rattle.block_memory.specs.Starts.{named_parts, variable_start, item_start, items_start, variable_block};

use crate::block::Block;
use crate::parts::Parts;
use crate::row::Row;
use crate::{Memory, Name, Part, Val};
use ir_syntax::{Const, Item, Module, Program, Sym, Var};
use ir_types::{Layout, OutOfMemory, Scalar, Ty, layout_of};
use std::alloc::Global;

/// The scalar that a type is.
fn scalar_of(ty: &Ty) -> Scalar
    requires { is_scalar (out-Ty ty.now) ≡ true }
    ensures { ty.now ≡ One result }
{
    match ty {
        Ty::One(scalar) => *scalar,
        Ty::Array(_, _) => unreachable!(),
        Ty::Struct(_) => unreachable!(),
    }
}

/// The size and the alignment of a type.
fn layout_in(ty: &Ty) -> Layout
    requires { IsNarrow ty.now }
    ensures size { result.size ≡ size ty.now }
    ensures align { result.align ≡ align ty.now }
    ensures positive { 0 < result.align }
    ensures small { result.align ≤ 8 }
    ensures narrow { result.size < 2 ^ 31 }
{
    match layout_of(ty) {
        Ok(layout) => layout,
        Err(_) => unreachable!(),
    }
}

/// How many bytes a type takes.
fn bytes_in(ty: &Ty) -> usize
    requires { IsNarrow ty.now }
    ensures { result ≡ size ty.now }
{
    layout_in(ty).size as usize
}

/// The next multiple of an alignment, from an offset on.
fn rounded_up(offset: usize, align: u32) -> usize
    requires positive { 0 < align }
    requires small { align ≤ 8 }
    requires narrow { offset < 2 ^ 32 }
    ensures value { result ≡ round_up offset align }
    ensures above { offset ≤ result }
{
    let align = align as usize;
    offset + (align - offset % align) % align
}

/// The name of the block of an item's address.
fn name_of(p: &Program, sym: Sym) -> Name<Sym>
    requires { IsSome (item_at p.now.modules sym) }
    ensures { starts.name_of p.now sym ≡ Some result }
{
    match &p.modules()[sym.module].items.as_slice()[sym.item] {
        Item::Var(_) => Name::Var(p.canonical(sym)),
        Item::Func(_) => Name::Func(p.canonical(sym)),
    }
}

/// Writes bytes from a place on.
fn lay_text(parts: &mut Parts, at: usize, bytes: &[u8])
    requires { at + length bytes.now ≤ length parts.old }
    ensures { parts.new ≡ set_from parts.old at (map part.Num bytes.now) }
{
    let _size = parts.len();
    for (k, byte) in bytes.iter().enumerate() {
        parts.set(at + k, &Part::Num(*byte));
    }
}

/// An item's address plus an offset.
fn address_of(p: &Program, home: usize, item: usize, offset: &i64) -> Val<Sym>
    requires { IsSome (item_at p.now.modules (record { «module» = home; item = item })) }
    ensures { option_map (address_at offset.now) (starts.name_of p.now (record { «module» = home; item = item })) ≡ Some result }
{
    Val::At(name_of(p, Sym { module: home, item }), *offset)
}

/// Lays the elements of an array out from a place on.
#[cycle(laying)]
fn lay_elements(
    p: &Program,
    home: usize,
    parts: &mut Parts,
    at: usize,
    constants: &[Const],
    element: &Ty,
)
    requires suit { IsTrue (list_all (λ part. part element.now) (map (suits (length (items_in p.now home))) constants.now)) }
    requires narrow { IsNarrow element.now }
    requires room { at + length constants.now * size element.now ≤ length parts.old }
    ensures { IsLaid p.now home (elements element.now constants.now) at (at + length constants.now * size element.now) parts.old parts.new }
{
    let _room = parts.len();
    let size = bytes_in(element);
    let mut place = at;
    for constant in constants {
        lay(p, home, parts, place, constant, element);
        place += size;
    }
}

/// Lays the fields of a struct of a size out from a place on, each behind zeros up to its alignment, and zeros behind the
/// last.
#[cycle(laying)]
fn lay_fields(
    p: &Program,
    home: usize,
    parts: &mut Parts,
    at: usize,
    size: usize,
    constants: &[Const],
    fields: &[Ty],
)
    requires suit { IsTrue (each_takes (map (suits (length (items_in p.now home))) constants.now) fields.now) }
    requires narrow { struct_width (map extent fields.now) < 2 ^ 31 }
    requires size { size ≡ struct_size (map extent fields.now) }
    requires room { at + size ≤ length parts.old }
    ensures { IsLaid p.now home (fields_behind 0 size constants.now fields.now) at (at + size) parts.old parts.new }
{
    let _room = parts.len();
    let mut end = 0;
    for (k, constant) in constants.iter().enumerate() {
        let field = &fields[k];
        let layout = layout_in(field);
        let offset = rounded_up(end, layout.align);
        parts.fill(at + end, offset - end, &Part::Num(0));
        lay(p, home, parts, at + offset, constant, field);
        end = offset + layout.size as usize;
    }
    parts.fill(at + end, size - end, &Part::Num(0));
}

/// Lays the parts of an array or a struct out from a place on.
#[cycle(laying)]
fn lay_many(p: &Program, home: usize, parts: &mut Parts, at: usize, constants: &[Const], ty: &Ty)
    requires suit { IsTrue (takes_parts (out-Ty ty.now) (map (suits (length (items_in p.now home))) constants.now)) }
    requires narrow { IsNarrow ty.now }
    requires room { at + size ty.now ≤ length parts.old }
    ensures { IsLaid p.now home (parts_in ty.now (out-Ty ty.now) (map initial_parts constants.now)) at (at + size ty.now) parts.old parts.new }
{
    match ty {
        Ty::One(_) => unreachable!(),
        Ty::Array(_, element) => lay_elements(p, home, parts, at, constants, element.get()),
        Ty::Struct(fields) => {
            lay_fields(
                p,
                home,
                parts,
                at,
                bytes_in(ty),
                constants,
                fields.as_slice(),
            )
        }
    }
}

/// Lays a constant out from a place on. It recurses as deep as the constant nests.
#[cycle(laying)]
fn lay(p: &Program, home: usize, parts: &mut Parts, at: usize, constant: &Const, ty: &Ty)
    requires suits { Suits (length (items_in p.now home)) ty.now constant.now }
    requires narrow { IsNarrow ty.now }
    requires room { at + size ty.now ≤ length parts.old }
    ensures { IsLaid p.now home (initial_parts constant.now ty.now) at (at + size ty.now) parts.old parts.new }
{
    match constant {
        Const::Int(number) => parts.put(scalar_of(ty), at, &Val::Num(*number)),
        Const::Null => parts.put(scalar_of(ty), at, &Val::Null),
        Const::Addr(item, offset) => parts.put(
            scalar_of(ty),
            at,
            &address_of(p, home, *item, offset),
        ),
        Const::Undef => parts.fill(at, bytes_in(ty), &Part::Poison),
        Const::Poison => parts.fill(at, bytes_in(ty), &Part::Poison),
        Const::Zero => parts.fill(at, bytes_in(ty), &Part::Num(0)),
        Const::Text(bytes) => lay_text(parts, at, bytes.as_slice()),
        Const::Many(constants) => lay_many(p, home, parts, at, constants.as_slice(), ty),
    }
}

/// The block of a variable that is defined by this constant.
fn defined(
    alloc: Global,
    p: &Program,
    home: usize,
    var: &Var,
    init: &Const,
) -> Result<Block, OutOfMemory>
    requires suits { Suits (length (items_in p.now home)) var.now.ty init.now }
    requires narrow { IsNarrow var.now.ty }
    ensures { IfOk result (λ block. option_map (variable_block var.now) (named_parts p.now home (initial_parts init.now var.now.ty)) ≡ Some block) }
{
    let mut parts = Parts::new(alloc, bytes_in(&var.ty), true)?;
    lay(p, home, &mut parts, 0, init, &var.ty);
    Block::new(alloc, parts, !var.constant, false)
}

/// The block of a variable, where it is defined.
fn variable_block(
    alloc: Global,
    p: &Program,
    home: usize,
    var: &Var,
) -> Result<Option<Block>, OutOfMemory>
    requires formed { FormedVar (items_in p.now home) var.now }
    requires narrow { IsNarrow var.now.ty }
    ensures { IfOk result (λ block. variable_start p.now home var.now (initial_bytes var.now) ≡ Some block) }
{
    match &var.init {
        Some(init) => Ok(Some(defined(alloc, p, home, var, init)?)),
        None => Ok(None),
    }
}

/// The block of an item, where it is the definition of a variable.
fn item_block(
    alloc: Global,
    p: &Program,
    home: usize,
    item: &Item,
) -> Result<Option<Block>, OutOfMemory>
    requires formed { FormedItem (items_in p.now home) item.now }
    requires typed { TypedItem (items_in p.now home) item.now }
    ensures { IfOk result (λ block. item_start p.now home item.now ≡ Some block) }
{
    match item {
        Item::Var(var) => variable_block(alloc, p, home, var),
        Item::Func(_) => Ok(None),
    }
}

/// The blocks of the items of a module.
fn module_blocks(alloc: Global, p: &Program, home: usize, m: &Module) -> Result<Row, OutOfMemory>
    requires program { IsProgram p.now }
    requires home { slice_get p.now.modules home ≡ Some m.now }
    ensures { IfOk result (λ row. items_start p.now home m.now.items ≡ Some row) }
{
    let mut row = Row::new(alloc);
    for item in m.items.as_slice() {
        row.push(item_block(alloc, p, home, item)?)?;
    }
    Ok(row)
}

impl Memory {
    /// The memory that a program starts with: a block for each variable that is defined, with the bytes of its initialiser
    /// (LLVM Language Reference Manual, "Global Variables"). A `constant` may not be written to. The error is want of memory.
    pub fn start(alloc: Global, p: &Program) -> Result<Memory, OutOfMemory>
        ensures { IfOk result (λ mem. starts.start p.now ≡ Some mem) }
    {
        let mut vars = Vec::new(alloc);
        for (home, m) in p.modules().iter().enumerate() {
            vars.push(module_blocks(alloc, p, home, m)?)?;
        }
        Ok(Memory {
            vars,
            made: Vec::new(alloc),
        })
    }
}

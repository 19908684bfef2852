//! What calls outside are shown.
ghost use Rattle.std.specs.Prelude.{◌≡◌, IfOk, IsSome, Some};
ghost use Rattle.block_memory.specs.Answers.{Gives, IsMeant, and_then, answered, or_stuck};
ghost use Rattle.block_memory.specs.Blocks.{block_at};
ghost use Rattle.ir_steps.specs.Showing as showing;
ghost use Rattle.ir_meaning.specs.Mirrors.Outcomes.{IsAnswered};
ghost use Rattle.ir_meaning.specs.Mirrors.Showing.{IsInto, wanting};

use crate::halt::Halt;
use block_memory::{Memory, Name, Part, ShowFault, Val};
use int_ops::Cause;
use ir_steps::{Shown, Wanted};
use ir_syntax::{Program, Sym, SymName};
use ir_types::{Bytes, Copied, FnType, OutOfMemory};
use sqlite_items::Items as List;
use std::alloc::Global;

/// None of the values may be poison.
pub fn no_poison(values: &[Val<Sym>]) -> Result<(), Cause>
    ensures { showing.no_poison values.now ≡ answered result }
{
    for value in values {
        match value {
            Val::Num(_) => {}
            Val::Null => {}
            Val::At(_, _) => {}
            Val::Poison => return Err(Cause::PoisonToOutside),
        }
    }
    Ok(())
}

/// The name of a block, with its symbol by name.
#[tactic(auto, using(crate::proofs::Named::var_is_item, crate::proofs::Named::func_is_item))]
fn shown_name(alloc: Global, p: &Program, of: &Name<Sym>) -> Result<Name<SymName>, OutOfMemory>
    requires { IsSome (showing.shown_name p.now of.now) }
    ensures { IfOk result (λ named. showing.shown_name p.now of.now ≡ Some named) }
{
    match of {
        Name::Var(sym) => Ok(Name::Var(p.sym_name(alloc, *sym)?)),
        Name::Func(sym) => Ok(Name::Func(p.sym_name(alloc, *sym)?)),
        Name::Made(number) => Ok(Name::Made(*number)),
    }
}

/// A value, with its symbol by name.
#[tactic(auto, using(crate::proofs::Named::at_has_name))]
pub fn shown_value(
    alloc: Global,
    p: &Program,
    value: &Val<Sym>,
) -> Result<Val<SymName>, OutOfMemory>
    requires { IsSome (showing.shown_value p.now value.now) }
    ensures { IfOk result (λ named. showing.shown_value p.now value.now ≡ Some named) }
{
    match value {
        Val::Num(n) => Ok(Val::Num(*n)),
        Val::Null => Ok(Val::Null),
        Val::At(of, offset) => Ok(Val::At(shown_name(alloc, p, of)?, *offset)),
        Val::Poison => Ok(Val::Poison),
    }
}

/// A byte of memory, with its symbol by name.
#[tactic(auto, using(crate::proofs::Named::part_has_name))]
fn shown_part(alloc: Global, p: &Program, part: &Part<Sym>) -> Result<Part<SymName>, OutOfMemory>
    requires { IsSome (showing.shown_part p.now part.now) }
    ensures { IfOk result (λ named. showing.shown_part p.now part.now ≡ Some named) }
{
    match part {
        Part::Poison => Ok(Part::Poison),
        Part::Num(byte) => Ok(Part::Num(*byte)),
        Part::Of(of, offset, k) => Ok(Part::Of(shown_name(alloc, p, of)?, *offset, *k)),
    }
}

/// The bytes of a block, with their symbols by name.
fn shown_parts(
    alloc: Global,
    p: &Program,
    parts: &[Part<Sym>],
) -> Result<List<Part<SymName>>, OutOfMemory>
    requires { IsSome (showing.shown_parts p.now parts.now) }
    ensures { IfOk result (λ named. showing.shown_parts p.now parts.now ≡ Some named) }
{
    let mut named = List::new(alloc);
    for part in parts {
        named.push(shown_part(alloc, p, part)?)?;
    }
    Ok(named)
}

/// A value without a block.
fn bare(alloc: Global, p: &Program, value: &Val<Sym>) -> Result<Shown, OutOfMemory>
    requires { IsMeant (showing.bare p.now value.now) }
    ensures { IfOk result (λ shown. showing.bare p.now value.now ≡ Gives shown) }
{
    Ok(Shown {
        value: shown_value(alloc, p, value)?,
        block: None,
        writable: false,
    })
}

/// An address in a block with bytes, and the whole block. A block that has ended isn't shown.
fn in_block(
    alloc: Global,
    p: &Program,
    memory: &Memory,
    value: &Val<Sym>,
    of: &Name<Sym>,
) -> Result<Shown, Halt>
    requires into { IsInto value.now of.now }
    requires meant { IsMeant (and_then (showing.in_block p.now value.now) (or_stuck (block_at memory.now of.now))) }
    ensures { IsAnswered result (and_then (showing.in_block p.now value.now) (or_stuck (block_at memory.now of.now))) }
{
    let parts = match memory.show(alloc, value) {
        Ok(parts) => parts,
        Err(ShowFault::Undefined(cause)) => return Err(Halt::Undefined(cause)),
        Err(ShowFault::OutOfMemory) => return Err(Halt::OutOfMemory),
    };
    Ok(Shown {
        value: shown_value(alloc, p, value)?,
        block: Some(shown_parts(alloc, p, parts.as_slice())?),
        writable: memory.is_writable(of),
    })
}

/// An argument as it is shown.
fn shown(alloc: Global, p: &Program, memory: &Memory, value: &Val<Sym>) -> Result<Shown, Halt>
    requires { IsMeant (showing.shown p.now memory.now value.now) }
    ensures { IsAnswered result (showing.shown p.now memory.now value.now) }
{
    match value {
        Val::Num(_) => Ok(bare(alloc, p, value)?),
        Val::Null => Ok(bare(alloc, p, value)?),
        Val::At(of, _) => match of {
            Name::Var(_) => in_block(alloc, p, memory, value, of),
            Name::Func(_) => Ok(bare(alloc, p, value)?),
            Name::Made(_) => in_block(alloc, p, memory, value, of),
        },
        Val::Poison => Err(Halt::Undefined(Cause::PoisonToOutside)),
    }
}

/// The arguments as they are shown.
pub fn shown_all(
    alloc: Global,
    p: &Program,
    memory: &Memory,
    values: &[Val<Sym>],
) -> Result<List<Shown>, Halt>
    requires { IsMeant (showing.shown_all p.now memory.now values.now) }
    ensures { IsAnswered result (showing.shown_all p.now memory.now values.now) }
{
    let mut all = List::new(alloc);
    for value in values {
        all.push(shown(alloc, p, memory, value)?)?;
    }
    Ok(all)
}

/// What a call wants that leaves the program.
pub fn wanted(
    alloc: Global,
    p: &Program,
    memory: &Memory,
    name: &[u8],
    fn_ty: &FnType,
    args: &[Val<Sym>],
) -> Result<Wanted, Halt>
    requires { IsMeant (showing.shown_all p.now memory.now args.now) }
    ensures { IsAnswered result (and_then (λ shown. Gives (wanting name.now fn_ty.now shown)) (showing.shown_all p.now memory.now args.now)) }
{
    let args = shown_all(alloc, p, memory, args)?;
    Ok(Wanted {
        name: Bytes::from_slice(alloc, name)?,
        fn_ty: fn_ty.copied(alloc)?,
        args,
    })
}

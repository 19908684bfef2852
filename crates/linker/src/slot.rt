//! What is found out of an external name.
ghost use Rattle.std.specs.Prelude.{◌≡◌, ℕ, List as Listing, IfOk, MatchBool};
ghost use Rattle.ir_syntax.specs.Builtins.{builtin_named};
ghost use Rattle.ir_syntax.specs.Intrinsics.{intrinsic_named};
ghost use Rattle.ir_syntax.specs.Symbols.{IsDefinitionOf, IsUndefined};
ghost use Rattle.name_table.specs.Places.{is_among};
ghost use Rattle.linker.specs.Mirrors.Marks.{marks_of};
ghost use Rattle.linker.specs.Mirrors.Groups.{symbols_of, symbols_in, Differ, AreAlike};
ghost use Rattle.linker.specs.Mirrors.Slots.{IsSlot, AreSame, breaks as breaks_rule, undefined_target, is_nothing as is_no_target};

use crate::group::{Group, type_at};
use crate::items::name_at;
use ir_syntax::{Builtin, Intrinsic, Module, Sym, Target};
use ir_types::{List, OutOfMemory};
use name_table::Names;
use std::alloc::Global;

/// What is found out of an external name: what it stands for, its canonical symbol, and whether it breaks the rules of
/// names.
#[derive(Clone, Copy, Debug, PartialEq, Eq)]
pub(crate) struct Slot {
    /// What the name stands for.
    pub target: Target,
    /// Its canonical symbol.
    pub canonical: Sym,
    /// It has two definitions.
    pub doubled: bool,
    /// It is named and stands for nothing.
    pub missing: bool,
    /// Its items differ in type, or one differs from the built-in function that the name stands for.
    pub clashes: bool,
}

/// The rules that each external name keeps.
#[derive(Clone, Copy, Debug, PartialEq, Eq)]
pub(crate) enum NameRule {
    /// It hasn't two definitions.
    OneDefinition,
    /// It is defined, or needn't be.
    Defined,
    /// Its items are of one type.
    OneType,
}

/// What an external name without a definition stands for, where it may be that of a function outside.
fn target_of_undefined(name: &[u8], outside: bool) -> Target
    ensures { result ≡ undefined_target (builtin_named name.now) (intrinsic_named name.now) outside }
{
    match Builtin::of_name(name) {
        Some(builtin) => Target::Builtin(builtin),
        None => match Intrinsic::of_name(name) {
            Some(intrinsic) => Target::Intrinsic(intrinsic),
            None => {
                if outside {
                    Target::Outside
                } else {
                    Target::Nothing
                }
            }
        },
    }
}

/// Whether the target is none.
fn is_nothing(target: Target) -> bool
    ensures { result ≡ is_no_target target }
{
    match target {
        Target::Nothing => true,
        Target::Def(_) => false,
        Target::Outside => false,
        Target::Builtin(_) => false,
        Target::Intrinsic(_) => false,
    }
}

/// Whether the name is among these.
fn is_listed(names: &Names, name: &[u8]) -> bool
    ensures { result ≡ is_among name.now names.now }
{
    names.place_of(name).is_some()
}

/// Whether the items of a name differ in type, or one differs from the built-in function.
fn differ(
    alloc: Global,
    modules: &[Module],
    group: &Group,
    builtin: Option<Builtin>,
) -> Result<bool, OutOfMemory>
    ensures { IfOk result (λ differ. MatchBool differ (Differ modules.now builtin (symbols_in group.now) group.now.first) (AreAlike modules.now builtin (symbols_in group.now) group.now.first)) }
{
    let ty = type_at(alloc, modules, group.first)?;
    if !group.has_type(modules, &ty) {
        return Ok(true);
    }
    match builtin {
        Some(builtin) => {
            let ty = Some(builtin.fn_type(alloc)?);
            Ok(!group.has_type(modules, &ty))
        }
        None => Ok(false),
    }
}

impl Slot {
    /// What the group of a name says of it, where it has this definition.
    fn of_defined(
        alloc: Global,
        modules: &[Module],
        group: &Group,
        symbol: Sym,
    ) -> Result<Slot, OutOfMemory>
        ensures { IfOk result (λ slot. (name : Listing ℕ) (listed : Listing (Listing ℕ)) → symbols_in group.now ≡ symbols_of modules.now name
            → IsDefinitionOf modules.now name symbol → IsSlot modules.now listed name slot) }
    {
        Ok(Slot {
            target: Target::Def(symbol),
            canonical: symbol,
            doubled: group.has_other_definition(modules, symbol),
            missing: false,
            clashes: differ(alloc, modules, group, None)?,
        })
    }

    /// What the group of a name says of it, where it has no definition.
    fn of_undefined(
        alloc: Global,
        modules: &[Module],
        marks: &[List<bool>],
        outside: &Names,
        group: &Group,
    ) -> Result<Slot, OutOfMemory>
        requires marks { marks.now ≡ marks_of modules.now }
        ensures { IfOk result (λ slot. (name : Listing ℕ) (listed : Listing (Listing ℕ)) → symbols_in group.now ≡ symbols_of modules.now name
            → AreSame outside.now listed → IsUndefined modules.now name → IsSlot modules.now listed name slot) }
    {
        let name = name_at(modules, group.first);
        let listed = is_listed(outside, name) && group.has_function(modules);
        let target = target_of_undefined(name, listed);
        Ok(Slot {
            target,
            canonical: group.first,
            doubled: false,
            missing: is_nothing(target) && group.is_named(marks),
            clashes: differ(alloc, modules, group, Builtin::of_name(name))?,
        })
    }

    /// What the group of a name says of it. `marks` says which items are named, and `outside` has the names that are
    /// listed. The error is want of memory.
    pub(crate) fn of(
        alloc: Global,
        modules: &[Module],
        marks: &[List<bool>],
        outside: &Names,
        group: &Group,
    ) -> Result<Slot, OutOfMemory>
        requires marks { marks.now ≡ marks_of modules.now }
        ensures { IfOk result (λ slot. (name : Listing ℕ) (listed : Listing (Listing ℕ)) → symbols_in group.now ≡ symbols_of modules.now name
            → AreSame outside.now listed → IsSlot modules.now listed name slot) }
    {
        match group.definition(modules) {
            Some(symbol) => Slot::of_defined(alloc, modules, group, symbol),
            None => Slot::of_undefined(alloc, modules, marks, outside, group),
        }
    }

    /// Whether the name breaks the rule.
    pub(crate) fn breaks(&self, rule: NameRule) -> bool
        ensures { result ≡ breaks_rule rule self.now }
    {
        match rule {
            NameRule::OneDefinition => self.doubled,
            NameRule::Defined => self.missing,
            NameRule::OneType => self.clashes,
        }
    }
}

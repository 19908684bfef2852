//! Whole programs.
ghost use Rattle.std.specs.Prelude.{◌≡◌, Some, IsSome, IfOk};
ghost use Rattle.ir_syntax.specs.Symbols.{item_at, home_of, symbol_name};
ghost use Rattle.ir_syntax.specs.Targets.{entry_at};
ghost use Rattle.ir_syntax.specs.Programs.{IsProgram};

use crate::{Item, Linkage, Module, Sym, SymName, Target};
use ir_types::{Bytes, Known, OutOfMemory};
use sqlite_items::Items as List;
use std::alloc::Global;
use std::marker::Model;

/// A linked program: its modules, what each item stands for, its entry with what is known of the arguments, and its
/// exports.
///
/// Every module is formed, well typed and definite; there are fewer than 2^31, with fewer than 2^32 items each. No external
/// name has two definitions or items of different types, and each that a body or an initialiser names has a definition, or
/// stands for an intrinsic, a built-in function or a function outside. The entry and the exports have bodies, and what is
/// known of an argument is nothing, a number below 2^w of an integer parameter of width w, or null of a `ptr` parameter.
#[derive(Debug, Drop)]
pub struct Program {
    linked: List<Module>,
    stands_for: List<List<Target>>,
    stands_as: List<List<Sym>>,
    first: Sym,
    known: List<Known>,
    exported: List<Sym>,
}

impl Model for Program {
    ghost use Rattle.ir_types.specs.contracts.shape.Ty as ty;
    ghost use Rattle.ir_syntax.specs.contracts.constant.Const as constant;
    ghost use Rattle.ir_syntax.specs.Programs.{ProgramData, IsProgram};
    ghost use Rattle.std.specs.Coded.{codes};

    ghost Value = { ProgramData };

    ghost view = { λ p. record { modules = p.linked; targets = p.stands_for; canonical = p.stands_as; entry = p.first; entry_args = p.known; exports = p.exported } };

    ghost coded = { Prim.hlevel (codes, ty.the_row.coded, constant.the_row.coded) };

    ghost invariant = { λ p. IsProgram (record { modules = p.linked; targets = p.stands_for; canonical = p.stands_as; entry = p.first; entry_args = p.known; exports = p.exported }) };
}

impl Program {
    /// The program of these parts. `targets` and `canonical` hold one for each item, by module and item, and `entry_args`
    /// one for each parameter of the entry.
    pub fn new(
        modules: List<Module>,
        targets: List<List<Target>>,
        canonical: List<List<Sym>>,
        entry: Sym,
        entry_args: List<Known>,
        exports: List<Sym>,
    ) -> Program
        requires program { IsProgram (record { modules = «modules»; targets = targets; canonical = canonical; entry = entry; entry_args = entry_args; exports = exports }) }
        ensures { result ≡ record { modules = «modules»; targets = targets; canonical = canonical; entry = entry; entry_args = entry_args; exports = exports } }
    {
        Program {
            linked: modules,
            stands_for: targets,
            stands_as: canonical,
            first: entry,
            known: entry_args,
            exported: exports,
        }
    }

    /// The modules of the program, in order.
    pub fn modules(&self) -> &[Module]
        ensures modules { result.now ≡ self.now.modules }
        ensures program { IsProgram self.now }
    {
        self.linked.as_slice()
    }

    /// What the item that a symbol names stands for.
    pub fn target(&self, sym: Sym) -> &Target
        requires item { IsSome (item_at self.now.modules sym) }
        ensures { entry_at self.now.targets sym ≡ Some result.now }
    {
        entry_at(self.stands_for.as_slice(), sym)
    }

    /// The canonical symbol of an item: its definition where there is one, and otherwise the least item of its external
    /// name, by module and then by item.
    pub fn canonical(&self, sym: Sym) -> Sym
        requires item { IsSome (item_at self.now.modules sym) }
        ensures { entry_at self.now.canonical sym ≡ Some result }
    {
        *entry_at(self.stands_as.as_slice(), sym)
    }

    /// The entry.
    pub fn entry(&self) -> Sym
        ensures { result ≡ self.now.entry }
    {
        self.first
    }

    /// What is known of the entry's arguments, one for each parameter.
    pub fn entry_args(&self) -> &[Known]
        ensures { result.now ≡ self.now.entry_args }
    {
        self.known.as_slice()
    }

    /// The exports, in the order of the manifest.
    pub fn exports(&self) -> &[Sym]
        ensures { result.now ≡ self.now.exports }
    {
        self.exported.as_slice()
    }

    /// The symbol by name. Its home is the module of a local symbol, and `None` of an external one. The error is want of
    /// memory.
    pub fn sym_name(&self, alloc: Global, sym: Sym) -> Result<SymName, OutOfMemory>
        requires item { IsSome (item_at self.now.modules sym) }
        ensures { IfOk result (λ name. symbol_name self.now.modules sym ≡ Some name) }
    {
        match &self.linked.as_slice()[sym.module].items.as_slice()[sym.item] {
            Item::Var(var) => named(alloc, var.linkage, sym.module, var.name.as_slice()),
            Item::Func(func) => named(alloc, func.linkage, sym.module, func.name.as_slice()),
        }
    }
}

/// What stands at a symbol's place.
fn entry_at<A>(entries: &[List<A>], sym: Sym) -> &A
    requires there { IsSome (entry_at entries.now sym) }
    ensures { entry_at entries.now sym ≡ Some result.now }
{
    &entries[sym.module].as_slice()[sym.item]
}

fn home_of(linkage: Linkage, place: usize) -> Option<usize>
    ensures { result ≡ home_of linkage place }
{
    match linkage {
        Linkage::External => None,
        Linkage::Internal => Some(place),
        Linkage::Private => Some(place),
    }
}

fn named(alloc: Global, linkage: Linkage, place: usize, name: &[u8]) -> Result<SymName, OutOfMemory>
    ensures { IfOk result (λ symbol. symbol ≡ record { home = home_of linkage place; name = name.now }) }
{
    Ok(SymName {
        home: home_of(linkage, place),
        name: Bytes::from_slice(alloc, name)?,
    })
}

//! Assembling the winnowed modules of a set of demands.
ghost use Rattle.std.specs.Prelude.{◌≡◌, ◌<◌, ◌+◌, ◌^◌, ℕ, [], ◌∷◌, ◌++◌, List, All, IfOk, IfErr, OnOk, length};
ghost use Rattle.ir_syntax.specs.declared.item.Module.{Module};
ghost use Rattle.ir_syntax.specs.Programs.{ProgramData, AreSoundModules, IsProgram, IsSoundModule, Linked};
ghost use Rattle.ir_syntax.specs.Refusals.{Deployment, Rule, IsRefused};
ghost use Rattle.demands.specs.Order.{symbol_of as symbol_in};
ghost use Rattle.winnowed_form.specs.declared.member.Member as members_of_type;
ghost use Rattle.winnowed_form.specs.Conditions.{AreNeededPieces, AreDemandPieces, HasWinnowed, IsCause};
ghost use Rattle.winnowed_form.specs.Winnowed.{IsWinnowedOf};
ghost use Rattle.reach_prune.specs.Mirrors.Members.{IsWritable, IsSoundPair};
ghost use Rattle.reach_prune.specs.Mirrors.Shown.{shown};
ghost use Rattle.reach_prune.specs.Mirrors.Split.{AreSplit, AreWritable, AreMade};

use crate::clashes::check_names;
use crate::counts::{instruction_count, sort_count};
use crate::declared::symbol_of;
use crate::grounds::Grounds;
use crate::members::members_of;
use crate::modules::winnowed_module;
use demand_core::Row;
use ir_syntax::{Module, Program};
use ir_types::{List, OutOfMemory};
use linking_again::what_is_winnowed_links_again;
use specialise::Piece;
use std::alloc::Global;
use winnowed_form::{Member, ShapeFault, Sort, Winnowed};

/// A list for each module, in which nothing is.
fn empty_lists(alloc: Global, modules: usize) -> Result<Vec<List<Member>>, OutOfMemory>
    ensures { IfOk result (λ lists. AreSplit modules [] lists.items) }
{
    let mut lists = Vec::new(alloc);
    for _k in 0..modules {
        lists.push(List::new(alloc))?;
    }
    Ok(lists)
}

/// Puts a member to the end of its module's list.
fn put_member(lists: &mut Vec<List<Member>>, member: Member) -> Result<(), OutOfMemory>
    requires within { (symbol_in member.demand).«module» < length lists.old.items }
    ensures { OnOk result ((members : List members_of_type.Member) → AreSplit (length lists.old.items) members lists.old.items → AreSplit (length lists.old.items) (members ++ member ∷ []) lists.new.items) }
{
    let home = symbol_of(&member.demand).module;
    lists[home].push(member)?;
    Ok(())
}

/// For each module the members that it defines, in their order.
fn by_module(
    alloc: Global,
    modules: usize,
    members: Vec<Member>,
) -> Result<Vec<List<Member>>, OutOfMemory>
    requires within { All (λ member. (symbol_in member.demand).«module» < modules) members.items }
    ensures { IfOk result (λ lists. AreSplit modules members.items lists.items) }
{
    let mut lists = empty_lists(alloc, modules)?;
    for member in members {
        put_member(&mut lists, member)?;
    }
    Ok(lists)
}

fn winnowed_modules(
    alloc: Global,
    g: &Grounds<'_>,
    lists: &[List<Member>],
) -> Result<List<Module>, OutOfMemory>
    requires long { length lists.now ≡ length g.now.program.now.modules }
    requires writable { AreWritable (shown g.now) lists.now }
    ensures { IfOk result (AreMade (shown g.now) lists.now g.now.program.now.modules) }
{
    let mut made = List::new(alloc);
    for (home, module) in g.program.modules().iter().enumerate() {
        made.push(winnowed_module(alloc, g, home, module, lists[home].as_slice())?)?;
    }
    Ok(made)
}

/// The winnowed modules of members, and their counts.
fn winnowed(alloc: Global, g: &Grounds<'_>, members: Vec<Member>) -> Result<Winnowed, OutOfMemory>
    requires writable { All (λ member. IsWritable (shown g.now) (symbol_in member.demand).«module» member) members.items }
    ensures { IfOk result (IsWinnowedOf (shown g.now) members.items) }
{
    let originals = sort_count(g, Sort::Original, members.as_slice());
    let clones = sort_count(g, Sort::Clone, members.as_slice());
    let globals = sort_count(g, Sort::Variable, members.as_slice());
    let lists = by_module(alloc, g.program.modules().len(), members)?;
    let modules = winnowed_modules(alloc, g, lists.as_slice())?;
    let instructions = instruction_count(modules.as_slice());
    Ok(Winnowed {
        modules,
        originals,
        clones,
        globals,
        instructions,
    })
}

fn assembled(alloc: Global, p: &Program, pieces: List<(Row, Piece)>) -> Result<Winnowed, ShapeFault>
    requires pieces { All (IsSoundPair p.now) pieces }
    ensures program { IfOk result (λ w. IsProgram p.now) }
    ensures winnowed { IfOk result (HasWinnowed p.now pieces) }
    ensures clash { IfErr result (IsCause p.now pieces) }
{
    let g = match Grounds::of(alloc, p) {
        Ok(g) => g,
        Err(_) => return Err(ShapeFault::OutOfMemory),
    };
    let members = match members_of(alloc, p, pieces) {
        Ok(members) => members,
        Err(_) => return Err(ShapeFault::OutOfMemory),
    };
    match check_names(alloc, &g, members.as_slice()) {
        Ok(()) => {}
        Err(fault) => return Err(fault),
    }
    match winnowed(alloc, &g, members) {
        Ok(made) => Ok(made),
        Err(_) => Err(ShapeFault::OutOfMemory),
    }
}

/// The winnowed modules of the demands that a program needs, from their pieces as `least` gives them by an `Expander`: for each
/// module its target lines, then its needed variables in order, then for each function in order its needed patterns in the order
/// of demands, and then the declarations of what is named and not defined there, in byte order of names. A copy has its name,
/// its original's linkage, and no known parameter; the entry has its own name and all its parameters.
///
/// `NameClash` says that a copy has the name of an item of a module, and which is the first such name in the order of demands.
/// `OutOfMemory` says that the allocator refused memory.
pub fn assemble(
    alloc: Global,
    p: &Program,
    pieces: List<(Row, Piece)>,
) -> Result<Winnowed, ShapeFault>
    requires pieces { AreNeededPieces p.now pieces }
    ensures winnowed { IfOk result (HasWinnowed p.now pieces) }
    ensures clash { IfErr result (IsCause p.now pieces) }
    // Each module is formed, well typed and definite; and where each has few enough items for symbols, they can be linked.
    ensures sound { IfOk result (λ w. All IsSoundModule w.modules) }
    ensures linkable { IfOk result (λ w. All (λ (m : Module). length m.items + length pieces < 2 ^ 32) p.now.modules → AreSoundModules w.modules) }
    // For each deployment for which the program is linked, they are linked to a program of their own, and no name is refused.
    ensures linked { IfOk result (λ w. (d : Deployment) → Linked p.now.modules d p.now → (q : ProgramData) × Linked w.modules d q) }
    ensures not_refused { IfOk result (λ w. (d : Deployment) (rule : Rule) (name : List ℕ) → Linked p.now.modules d p.now → IsRefused w.modules d rule name → ⊥) }
{
    what_is_winnowed_links_again();
    assembled(alloc, p, pieces)
}

/// The winnowed modules of any set of demands, as `assemble` gives them for the least set. A function's piece is what
/// `residual` gives by some assignment of the function, and a variable's what `expand` gives.
///
/// `NameClash` says that a copy has the name of an item of a module, and which is the first such name in the order of demands.
/// `OutOfMemory` says that the allocator refused memory.
pub fn assemble_any(
    alloc: Global,
    p: &Program,
    pieces: List<(Row, Piece)>,
) -> Result<Winnowed, ShapeFault>
    requires pieces { AreDemandPieces p.now pieces }
    ensures winnowed { IfOk result (HasWinnowed p.now pieces) }
    ensures clash { IfErr result (IsCause p.now pieces) }
{
    assembled(alloc, p, pieces)
}

//! What holds of the winnowed modules of a set of demands. These functions do nothing: what they ensure is the law.
ghost use Rattle.std.specs.Prelude.{◌≡◌, ℕ, ◌+◌, ◌^◌, ◌<◌, ◌≤◌, Bool, List, Some, All, length, slice_get};
ghost use Rattle.ir_syntax.specs.declared.item.Module.{Module};
ghost use Rattle.ir_syntax.specs.Formed.{Formed};
ghost use Rattle.ir_syntax.specs.Typed.{Typed};
ghost use Rattle.ir_syntax.specs.Definite.{Definite};
ghost use Rattle.ir_syntax.specs.Refusals.{Deployment, Rule, IsKept, IsRefused, all_rules};
ghost use Rattle.ir_syntax.specs.Programs.{ProgramData, AreSoundModules, IsProgram, IsSoundModule, Linked};
ghost use Rattle.interface.specs.Asked.{AreCycles};
ghost use Rattle.specialise.specs.declared.piece.Piece.{Piece};
ghost use Rattle.winnowed_form.specs.declared.member.Member.{Member};
ghost use Rattle.winnowed_form.specs.declared.winnowed.Winnowed.{Winnowed};
ghost use Rattle.winnowed_form.specs.Basis.{basis};
ghost use Rattle.winnowed_form.specs.Clashes.{AreFree, copy_names};
ghost use Rattle.winnowed_form.specs.Conditions.{AreNeededPieces, HasWinnowed};
ghost use Rattle.winnowed_form.specs.Members.{AreMembers};
ghost use Rattle.winnowed_form.specs.Winnowed.{AreWinnowedModules};
ghost use Rattle.linking_again.specs.Whole.{IsWhole};

/// Where no copy has the name of an item, each written module is formed: no two of its items have one name, and each is one that a
/// text can write.
pub fn winnowed_modules_are_formed()
    ensures { (p : ProgramData) (cycles : List (List Bool)) (members : List Member) (made : List Module)
        → IsProgram p → IsWhole p cycles members → AreFree p.modules (copy_names (basis p cycles) members) → AreWinnowedModules (basis p cycles) members made → All Formed made }
{}

/// Each written module is well typed: a call of a copy has the copy's type.
pub fn winnowed_modules_are_typed()
    ensures { (p : ProgramData) (cycles : List (List Bool)) (members : List Member) (made : List Module)
        → IsProgram p → IsWhole p cycles members → AreWinnowedModules (basis p cycles) members made → All Typed made }
{}

/// On every path through a written body, what is used is defined before.
pub fn winnowed_modules_are_definite()
    ensures { (p : ProgramData) (cycles : List (List Bool)) (members : List Member) (made : List Module)
        → AreSoundModules p.modules → IsWhole p cycles members → AreWinnowedModules (basis p cycles) members made → All Definite made }
{}

/// A written module has no more items than its module and the set have together. Where that is few enough for symbols, the written
/// modules can be linked.
pub fn winnowed_modules_can_be_linked()
    ensures few { (p : ProgramData) (cycles : List (List Bool)) (members : List Member) (made : List Module) (home : ℕ) (m w : Module)
        → IsProgram p → IsWhole p cycles members → AreFree p.modules (copy_names (basis p cycles) members) → AreWinnowedModules (basis p cycles) members made
        → slice_get p.modules home ≡ Some m → slice_get made home ≡ Some w → length w.items ≤ length m.items + length members }
    ensures sound { (p : ProgramData) (cycles : List (List Bool)) (members : List Member) (made : List Module)
        → IsProgram p → IsWhole p cycles members → AreFree p.modules (copy_names (basis p cycles) members) → AreWinnowedModules (basis p cycles) members made
        → All (λ (m : Module). length m.items + length members < 2 ^ 32) p.modules → AreSoundModules made }
{}

/// Under each deployment for which the program is linked, the written modules keep all rules of linking: there is a program that
/// they are linked to, which is of these modules unchanged, and no name is refused.
pub fn winnowed_modules_link_again()
    ensures kept { (p : ProgramData) (cycles : List (List Bool)) (members : List Member) (made : List Module) (d : Deployment)
        → IsProgram p → IsWhole p cycles members → AreFree p.modules (copy_names (basis p cycles) members) → AreWinnowedModules (basis p cycles) members made
        → Linked p.modules d p → All (IsKept made d) all_rules }
    ensures linked { (p : ProgramData) (cycles : List (List Bool)) (members : List Member) (made : List Module) (d : Deployment)
        → IsProgram p → IsWhole p cycles members → AreFree p.modules (copy_names (basis p cycles) members) → AreWinnowedModules (basis p cycles) members made
        → Linked p.modules d p → (q : ProgramData) × Linked made d q }
    ensures not_refused { (p : ProgramData) (cycles : List (List Bool)) (members : List Member) (made : List Module) (d : Deployment) (rule : Rule) (name : List ℕ)
        → IsProgram p → IsWhole p cycles members → AreFree p.modules (copy_names (basis p cycles) members) → AreWinnowedModules (basis p cycles) members made
        → Linked p.modules d p → IsRefused made d rule name → ⊥ }
{}

/// The needed demands of a program with what they expand into are a whole set.
pub fn needed_sets_are_whole()
    ensures { (p : ProgramData) (pieces : List (List ℕ × Piece)) (cycles : List (List Bool)) (members : List Member)
        → IsProgram p → AreNeededPieces p pieces → AreCycles p cycles → AreMembers p pieces members → IsWhole p cycles members }
{}

/// The winnowed modules of the needed pieces of a program, where no copy has the name of an item: each is formed, typed and definite,
/// and under each deployment for which the program is linked they keep all rules of linking, are linked to a program of their
/// own, and no name is refused.
pub fn what_is_winnowed_links_again()
    ensures sound { (p : ProgramData) (pieces : List (List ℕ × Piece)) (w : Winnowed)
        → IsProgram p → AreNeededPieces p pieces → HasWinnowed p pieces w → All IsSoundModule w.modules }
    ensures linkable { (p : ProgramData) (pieces : List (List ℕ × Piece)) (w : Winnowed)
        → IsProgram p → AreNeededPieces p pieces → HasWinnowed p pieces w → All (λ (m : Module). length m.items + length pieces < 2 ^ 32) p.modules → AreSoundModules w.modules }
    ensures kept { (p : ProgramData) (pieces : List (List ℕ × Piece)) (w : Winnowed) (d : Deployment)
        → IsProgram p → AreNeededPieces p pieces → HasWinnowed p pieces w → Linked p.modules d p → All (IsKept w.modules d) all_rules }
    ensures linked { (p : ProgramData) (pieces : List (List ℕ × Piece)) (w : Winnowed) (d : Deployment)
        → IsProgram p → AreNeededPieces p pieces → HasWinnowed p pieces w → Linked p.modules d p → (q : ProgramData) × Linked w.modules d q }
    ensures not_refused { (p : ProgramData) (pieces : List (List ℕ × Piece)) (w : Winnowed) (d : Deployment) (rule : Rule) (name : List ℕ)
        → IsProgram p → AreNeededPieces p pieces → HasWinnowed p pieces w → Linked p.modules d p → IsRefused w.modules d rule name → ⊥ }
{}

//! Laws of spelling. Each is the contract of a function that does nothing.
ghost use Rattle.std.specs.Prelude.{◌≡◌, ◌≤◌, ℕ, List, length};
ghost use Rattle.ir_lexer.specs.Tokens.{IsBadByte};
ghost use Rattle.ir_syntax.specs.declared.item.Module.{Module};
ghost use Rattle.ir_syntax.specs.Formed.{Formed};
ghost use Rattle.ir_parser.specs.Spelled.{Spells, IsNotInSubset};

use ir_grammar::{entity_takes_one, one_derivation};
use ir_lexer::{tokens_are_one, tokens_or_bad_byte};

/// A module that a text spells is one that a text can write.
pub fn what_is_spelled_is_formed()
    ensures { (text : List ℕ) (m : Module) → Spells text m → Formed m }
{}

/// A text spells one module at most.
pub fn a_text_spells_one_module()
    ensures { (text : List ℕ) (m n : Module) → Spells text m → Spells text n → m ≡ n }
{
    tokens_are_one();
    one_derivation();
    entity_takes_one();
}

/// A module has at most as many items as its text has bytes.
pub fn items_are_within_the_text()
    ensures { (text : List ℕ) (m : Module) → Spells text m → length m.items ≤ length text }
{
    entity_takes_one();
}

/// A text that spells a module has no bad byte, and no entity that isn't in the subset.
pub fn a_spelled_text_has_no_cause()
    ensures no_bad_byte { (text : List ℕ) (m : Module) (at : ℕ) → Spells text m → IsBadByte text at → ⊥ }
    ensures in_subset { (text : List ℕ) (m : Module) (entity : ℕ) → Spells text m → IsNotInSubset text entity → ⊥ }
{
    tokens_are_one();
    one_derivation();
    entity_takes_one();
    tokens_or_bad_byte();
}

/// One entity at most is why a text spells no module, and then the text has no bad byte.
pub fn the_cause_is_one_entity()
    ensures one { (text : List ℕ) (entity other : ℕ) → IsNotInSubset text entity → IsNotInSubset text other → entity ≡ other }
    ensures no_bad_byte { (text : List ℕ) (entity at : ℕ) → IsNotInSubset text entity → IsBadByte text at → ⊥ }
{
    tokens_are_one();
    one_derivation();
    entity_takes_one();
    tokens_or_bad_byte();
}

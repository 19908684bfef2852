//! Laws of the grammar. Each is the contract of a function that does nothing.
ghost use Rattle.std.specs.Prelude.{◌≡◌, ◌<◌, ◌∷◌, [], ℕ, List, Some};
ghost use Rattle.ir_grammar.specs.declared.grammar.Name.{Name};
ghost use Rattle.ir_grammar.specs.declared.grammar.Name.TheVariants as the;
ghost use Rattle.ir_grammar.specs.declared.grammar.Item.TheVariants as item;
ghost use Rattle.ir_grammar.specs.Tokens.{Piece, Kept};
ghost use Rattle.ir_grammar.specs.Derives.{IsDerived};
ghost use Rattle.ir_grammar.specs.Mirrors.Walk.{walk};

/// A nonterminal has one reading at most: it derives no other number of the first tokens, and
/// nothing else is kept of them.
pub fn one_derivation()
    ensures { (start : Name) (pieces : List Piece) (kept others : List Kept) (taken left : ℕ) →
        IsDerived start pieces kept taken → IsDerived start pieces others left → (kept ≡ others) × (taken ≡ left) }
{}

/// An entity of a module has one token or more.
pub fn entity_takes_one()
    ensures { (pieces : List Piece) (kept : List Kept) (taken : ℕ) → IsDerived the.Entity pieces kept taken → 0 < taken }
{}

/// The walk over tokens takes just what is derived.
pub fn walk_takes_what_is_derived()
    ensures sound { (start : Name) (pieces : List Piece) (kept : List Kept) (taken : ℕ) →
        walk (item.One start ∷ []) pieces ≡ Some (kept, taken) → IsDerived start pieces kept taken }
    ensures complete { (start : Name) (pieces : List Piece) (kept : List Kept) (taken : ℕ) →
        IsDerived start pieces kept taken → walk (item.One start ∷ []) pieces ≡ Some (kept, taken) }
{}

//! Laws of names. Each is the contract of a function that does nothing.
ghost use Rattle.std.specs.Prelude.{◌≡◌, ◌<◌, ℕ, List, true, Some, length, slice_get};
ghost use Rattle.ir_syntax.specs.declared.constant.Operand.TheVariants as operand;
ghost use Rattle.ir_grammar.specs.Tokens.{Kept};
ghost use Rattle.ir_locals.specs.Locals.{Local, result_names, block_names, locals_of, are_locals, local_among, operand_in, block_in};

/// Where the names are well, each stands for what its own entry says.
pub fn locals_are_distinct()
    ensures { (locals : List (List ℕ × Local)) → are_locals locals ≡ true →
        (k : ℕ) (l : List ℕ × Local) → slice_get locals k ≡ Some l → local_among locals l.0 ≡ Some l.1 }
{}

/// A name stands for a parameter, a result and a block that there is.
pub fn locals_are_within()
    ensures param { (params : List (List ℕ)) (ks : List Kept) (name : List ℕ) (k : ℕ) →
        operand_in (local_among (locals_of params ks) name) ≡ Some (operand.Param k) → k < length params }
    ensures reg { (params : List (List ℕ)) (ks : List Kept) (name : List ℕ) (k : ℕ) →
        operand_in (local_among (locals_of params ks) name) ≡ Some (operand.Reg k) → k < length (result_names ks) }
    ensures block { (params : List (List ℕ)) (ks : List Kept) (name : List ℕ) (k : ℕ) →
        block_in (local_among (locals_of params ks) name) ≡ Some k → k < length (block_names params ks) }
{}

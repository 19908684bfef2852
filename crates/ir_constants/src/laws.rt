//! Laws of constants. This function does nothing: what it ensures is the law.
ghost use Rattle.std.specs.Prelude.{◌≡◌, ℕ, List, Some, length};
ghost use Rattle.ir_types.specs.declared.shape.Ty.{Ty};
ghost use Rattle.ir_syntax.specs.declared.constant.Const.{Const};
ghost use Rattle.ir_syntax.specs.Suits.{Suits};
ghost use Rattle.ir_grammar.specs.Tokens.{Kept};
ghost use Rattle.ir_scope.specs.Scopes.{Env};
ghost use Rattle.ir_constants.specs.Constants.{constant_at};

/// A constant that is read at a type is one that the type takes, in a module of these symbols.
pub fn constants_suit()
    ensures { (env : Env) (ty : Ty) (ks : List Kept) (found : Const × ℕ) → constant_at env ty ks ≡ Some found → Suits (length env.symbols) ty found.0 }
{}

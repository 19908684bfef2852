//! Laws of bodies. Each is the contract of a function that does nothing.
ghost use Rattle.std.specs.Prelude.{◌≡◌, ◌≢◌, ℕ, List, AllPairs, Some, length, map};
ghost use Rattle.ir_syntax.specs.declared.body.Body.{Body};
ghost use Rattle.ir_syntax.specs.declared.item.Item.{Item};
ghost use Rattle.ir_syntax.specs.FormedBody.{item_name, FormedBody};
ghost use Rattle.ir_grammar.specs.Tokens.{Kept, Piece};
ghost use Rattle.ir_scope.specs.Scopes.{Env};
ghost use Rattle.ir_body.specs.Bodies.{body_at, SpellsBody};

use ir_grammar::one_derivation;

/// Tokens spell one body at most, and in one way.
pub fn spelled_body_is_one()
    ensures { (env : Env) (params : List (List ℕ)) (pieces : List Piece) (b c : Body) (n m : ℕ) →
        SpellsBody env params pieces b n → SpellsBody env params pieces c m → (b ≡ c) × (n ≡ m) }
{
    one_derivation();
}

/// The body that kept lexemes stand for is one that a text can write, where the symbols are the
/// names of the module's items, each once.
pub fn body_is_formed()
    ensures { (env : Env) (items : List Item) (params : List (List ℕ)) (kept : List Kept) (body : Body) →
        env.symbols ≡ map item_name items → AllPairs (λ a b. a ≢ b) env.symbols → body_at env params kept ≡ Some body → FormedBody items (length params) body }
{}

//! What holds of residual bodies. These functions do nothing: what they ensure is the law.
ghost use Rattle.std.specs.Prelude.{◌≡◌, ◌≤◌, ℕ, Bool, List, Some, IsSome, Contains, length, map, slice_get};
ghost use Rattle.ir_types.specs.declared.scalar.Known.{Known};
ghost use Rattle.ir_types.specs.declared.scalar.Known.TheVariants.{Unknown};
ghost use Rattle.ir_syntax.specs.declared.constant.Operand.TheVariants as operand;
ghost use Rattle.ir_syntax.specs.declared.item.Func.{Func};
ghost use Rattle.ir_syntax.specs.declared.item.Item.{Item};
ghost use Rattle.ir_syntax.specs.Definite.{first_result, DefiniteBody};
ghost use Rattle.ir_syntax.specs.FormedBody.{FormedBody};
ghost use Rattle.ir_syntax.specs.Named.{body_names, definition_names};
ghost use Rattle.ir_syntax.specs.Programs.{ProgramData};
ghost use Rattle.ir_syntax.specs.Results.{results};
ghost use Rattle.ir_syntax.specs.Typed.{TypedBody};
ghost use Rattle.fold_facts.specs.Assigned.{Assigned, IsReachedEdge};
ghost use Rattle.fold_facts.specs.Closed.{IsLeastClosed};
ghost use Rattle.fold_facts.specs.OfFunction.{AreKnownOf, IsAssignmentOf, results_in};
ghost use Rattle.fold_facts.specs.Places.{blocks_of};
ghost use Rattle.interface.specs.Masks.{chosen, rank};
ghost use Rattle.interface.specs.Summaries.{reached};
ghost use Rattle.specialise.specs.declared.piece.Piece.{Piece};
ghost use Rattle.specialise.specs.Leaving.{kept};
ghost use Rattle.specialise.specs.Pieces.{HasLeastPiece};
ghost use Rattle.specialise.specs.Residual.{residual};
ghost use Rattle.residual_laws.specs.Left.{IsLedTo, IsSoundAmong, IsLeft, AreAsked, with_body};
ghost use Rattle.residual_laws.specs.Used.{body_operands};

/// The results of a residual body are those that stay, in their order. It has as many blocks as are reached, and the first
/// result of one that is left comes behind those that stay before it.
pub fn what_stays_is_numbered_anew()
    ensures results { (known : List Known) (func : Func) (a : Assigned) → IsAssignmentOf func a
        → results (residual known func a) ≡ chosen (kept a (blocks_of func)) (results_in (blocks_of func)) }
    ensures blocks { (known : List Known) (func : Func) (a : Assigned) → IsAssignmentOf func a
        → length (residual known func a).blocks ≡ rank (reached a (blocks_of func)) (length (blocks_of func)) }
    ensures first { (known : List Known) (func : Func) (a : Assigned) (place : ℕ) → IsAssignmentOf func a → place ≤ length (blocks_of func)
        → first_result (residual known func a).blocks (rank (reached a (blocks_of func)) place) ≡ rank (kept a (blocks_of func)) (first_result (blocks_of func) place) }
{}

/// A residual body is formed: among the same items and parameters, what its blocks name is there, and suits.
pub fn residual_bodies_are_formed()
    ensures { (items : List Item) (known : List Known) (func : Func) (a : Assigned) → IsLeft items known func a
        → FormedBody items (length func.params) (residual known func a) }
{}

/// A residual body is typed, where no edge is reached but those that the terminators ask for: a branch on a known value goes one
/// way, so an edge that is reached beside that way would leave an entry of a phi without an edge.
pub fn residual_bodies_are_typed()
    ensures { (items : List Item) (known : List Known) (func : Func) (a : Assigned) → IsLeft items known func a → AreAsked known func a
        → TypedBody (record { items = items; params = map (λ param. param.ty) func.params; results = results (residual known func a) }) func.returns (residual known func a).blocks }
{}

/// On every path through a residual body, what is used is defined before.
pub fn residual_bodies_are_definite()
    ensures { (items : List Item) (known : List Known) (func : Func) (a : Assigned) → IsLeft items known func a → DefiniteBody (residual known func a) }
{}

/// Ways of reached edges lead to where those of the least closed assignment begin, and the terminators ask for them.
pub fn least_closed_assignments_are_led()
    ensures led { (known : List Known) (func : Func) (a : Assigned) → IsLeastClosed (record { known = known }) (blocks_of func) a
        → (from k to : ℕ) → IsReachedEdge a from k to → IsLedTo a from }
    ensures asked { (known : List Known) (func : Func) (a : Assigned) → IsLeastClosed (record { known = known }) (blocks_of func) a → AreAsked known func a }
{}

/// By such an assignment what is left of a function is the body of a sound one, among the same items.
pub fn residual_functions_are_sound()
    ensures { (items : List Item) (known : List Known) (func : Func) (a : Assigned) → IsLeft items known func a → AreAsked known func a
        → IsSoundAmong items (with_body func (Some (residual known func a))) }
{}

/// What a sound function expands into is the body of a sound one, among the same items.
pub fn expansions_are_sound()
    ensures { (items : List Item) (p : ProgramData) (cycles : List (List Bool)) (home : ℕ) (known : List Known) (func : Func) (piece : Piece)
        → IsSome func.body → IsSoundAmong items func → AreKnownOf func known → HasLeastPiece p cycles home known func piece
        → IsSoundAmong items (with_body func piece.body) }
{}

/// A residual body names no item that the function's body doesn't name.
pub fn residual_bodies_name_no_more()
    ensures { (known : List Known) (func : Func) (a : Assigned) (place : ℕ)
        → Contains (body_names (residual known func a)) place → Contains (definition_names func.body) place }
{}

/// A residual body uses no parameter that has a known value, so a copy can do without it.
pub fn known_parameters_are_gone()
    ensures { (known : List Known) (func : Func) (a : Assigned) (k : ℕ) (item : Known)
        → slice_get known k ≡ Some item → Contains (body_operands (residual known func a)) (operand.Param k) → item ≡ Unknown }
{}

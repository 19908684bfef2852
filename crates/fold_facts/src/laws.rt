//! What holds of facts and assignments. These functions do nothing: what they ensure is the law.
ghost use Rattle.std.specs.Prelude.{◌≡◌, ◌↔◌, ℕ, List, Some, IsTrue, length, slice_get};
ghost use Rattle.ir_types.specs.declared.scalar.Known.{Known};
ghost use Rattle.ir_syntax.specs.declared.body.Inst.{Inst};
ghost use Rattle.ir_syntax.specs.declared.body.Phi.{Phi};
ghost use Rattle.ir_syntax.specs.declared.body.Term.{Term};
ghost use Rattle.ir_syntax.specs.declared.body.Block.{Block};
ghost use Rattle.ir_syntax.specs.declared.item.Func.{Func};
ghost use Rattle.ir_syntax.specs.Definite.{Defines};
ghost use Rattle.ir_syntax.specs.Edges.{successors};
ghost use Rattle.ir_syntax.specs.SoundFunctions.{IsSoundFunction};
ghost use Rattle.fold_facts.specs.declared.fact.Fact.{Fact};
ghost use Rattle.fold_facts.specs.declared.fact.Fact.TheVariants.{Unreached};
ghost use Rattle.fold_facts.specs.Facts.{IsBelow, join};
ghost use Rattle.fold_facts.specs.Assigned.{Assigned, fact_of, edges_from, IsReachedEdge, is_reached, IsAtMost};
ghost use Rattle.fold_facts.specs.Operands.{Setting};
ghost use Rattle.fold_facts.specs.Instructions.{inst_fact};
ghost use Rattle.fold_facts.specs.Phis.{phi_fact};
ghost use Rattle.fold_facts.specs.Terminators.{asks, term_edges};
ghost use Rattle.fold_facts.specs.Closed.{IsLeastClosed};
ghost use Rattle.fold_facts.specs.Places.{blocks_of};
ghost use Rattle.fold_facts.specs.OfFunction.{IsAssignmentOf, results_in};

/// The order of facts is partial.
pub fn order_is_partial()
    ensures reflexive { (x : Fact) → IsBelow x x }
    ensures transitive { (x y z : Fact) → IsBelow x y → IsBelow y z → IsBelow x z }
    ensures antisymmetric { (x y : Fact) → IsBelow x y → IsBelow y x → x ≡ y }
{}

/// The join of two facts is the least that both are at most.
pub fn join_is_least_upper_bound()
    ensures left { (x y : Fact) → IsBelow x (join x y) }
    ensures right { (x y : Fact) → IsBelow y (join x y) }
    ensures least { (x y z : Fact) → IsBelow x z → IsBelow y z → IsBelow (join x y) z }
{}

/// The order of assignments is partial, but for how they are written.
pub fn assignments_are_ordered()
    ensures reflexive { (a : Assigned) → IsAtMost a a }
    ensures transitive { (a b c : Assigned) → IsAtMost a b → IsAtMost b c → IsAtMost a c }
{}

/// What a place says rises with the assignment, and so do the blocks that are reached.
pub fn what_is_said_rises()
    ensures phis { (setting : Setting) (a b : Assigned) (place : ℕ) (phi : Phi)
        → IsAtMost a b → IsBelow (phi_fact setting a place phi) (phi_fact setting b place phi) }
    ensures insts { (setting : Setting) (a b : Assigned) (inst : Inst)
        → IsAtMost a b → IsBelow (inst_fact setting a.facts inst) (inst_fact setting b.facts inst) }
    ensures terms { (setting : Setting) (a b : Assigned) (term : Term) (k : ℕ)
        → IsAtMost a b → IsTrue (asks (term_edges setting a.facts term) k) → IsTrue (asks (term_edges setting b.facts term) k) }
    ensures blocks { (a b : Assigned) (place : ℕ) → IsAtMost a b → IsTrue (is_reached a place) → IsTrue (is_reached b place) }
{}

/// Two least closed assignments are one: they have the same facts, and reach the same edges.
pub fn least_closed_is_one()
    ensures facts { (setting : Setting) (blocks : List Block) (a b : Assigned) (k : ℕ)
        → IsLeastClosed setting blocks a → IsLeastClosed setting blocks b → fact_of a.facts k ≡ fact_of b.facts k }
    ensures edges { (setting : Setting) (blocks : List Block) (a b : Assigned) (from k to : ℕ)
        → IsLeastClosed setting blocks a → IsLeastClosed setting blocks b → IsReachedEdge a from k to ↔ IsReachedEdge b from k to }
{}

/// An assignment of a function has a fact for each result, and an edge for each successor of a block.
pub fn assignments_have_places()
    ensures facts { (func : Func) (a : Assigned) → IsAssignmentOf func a → length a.facts ≡ length (results_in (blocks_of func)) }
    ensures edges { (func : Func) (a : Assigned) (place : ℕ) (block : Block) → IsAssignmentOf func a
        → slice_get (blocks_of func) place ≡ Some block → length (edges_from a place) ≡ length (successors block.term) }
{}

/// In the least closed assignment of a function that is formed, typed and definite by itself, no result of a reached block is
/// Unreached, whatever is known of the parameters. So each phi of a reached block says something, and each use is of a result that
/// may have a value.
pub fn results_of_reached_blocks_have_facts()
    ensures { (func : Func) (known : List Known) (a : Assigned) (place k : ℕ)
        → IsSoundFunction func → IsAssignmentOf func a → IsLeastClosed (record { known = known }) (blocks_of func) a
        → IsTrue (is_reached a place) → Defines (blocks_of func) place k → fact_of a.facts k ≡ Unreached → ⊥ }
{}

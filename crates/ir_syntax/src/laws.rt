//! What holds of modules and their parts. These functions do nothing: what they ensure is the law.
ghost use Rattle.std.specs.Prelude.{◌≡◌, ◌↔◌, ◌<◌, ◌^◌, ℕ, List, Some, IsSomeAnd, map, slice_get};
ghost use Rattle.ir_types.specs.declared.scalar.Scalar.{Scalar};
ghost use Rattle.ir_types.specs.declared.shape.Ty.{Ty};
ghost use Rattle.ir_types.specs.Nesting.{nodes};
ghost use Rattle.ir_types.specs.Walk.{strides};
ghost use Rattle.ir_syntax.specs.declared.constant.Operand.{Operand};
ghost use Rattle.ir_syntax.specs.declared.body.Inst.{Inst};
ghost use Rattle.ir_syntax.specs.declared.body.Term.{Term};
ghost use Rattle.ir_syntax.specs.declared.body.Phi.{Phi};
ghost use Rattle.ir_syntax.specs.declared.item.Func.{Func};
ghost use Rattle.ir_syntax.specs.declared.item.Item.TheVariants as item;
ghost use Rattle.ir_syntax.specs.declared.item.Module.{Module};
ghost use Rattle.ir_syntax.specs.Formed.{Formed};
ghost use Rattle.ir_syntax.specs.IndexWalks.{index_of, SuitStrides};
ghost use Rattle.ir_syntax.specs.Typed.{IsWalk, Typed};
ghost use Rattle.ir_syntax.specs.Definite.{Definite};
ghost use Rattle.ir_syntax.specs.Edges.{successors};
ghost use Rattle.ir_syntax.specs.Mapped.{map_operands, map_term, map_phi};
ghost use Rattle.ir_syntax.specs.Operands.{operands, term_operands, phi_operands};
ghost use Rattle.ir_syntax.specs.Results.{result_type};
ghost use Rattle.ir_syntax.specs.SoundFunctions.{IsSoundFunction};

/// Each function of a formed, well typed and definite module is formed, well typed and definite by itself.
pub fn functions_are_sound()
    ensures { (m : Module) (place : ℕ) (func : Func)
        → Formed m → Typed m → Definite m → slice_get m.items place ≡ Some (item.Func func) → IsSoundFunction func }
{}

/// Where each operand of an instruction, a terminator or a phi is mapped, its operands are those mapped. An instruction
/// keeps the type of its result, and a terminator the blocks that it goes to.
pub fn mapping_keeps_the_rest()
    ensures operands { (f : Operand → Operand) (i : Inst) → operands (map_operands f i) ≡ map f (operands i) }
    ensures result { (f : Operand → Operand) (i : Inst) → result_type (map_operands f i) ≡ result_type i }
    ensures term_operands { (f : Operand → Operand) (t : Term) → term_operands (map_term f t) ≡ map f (term_operands t) }
    ensures successors { (f : Operand → Operand) (t : Term) → successors (map_term f t) ≡ successors t }
    ensures phi_operands { (f : Operand → Operand) (phi : Phi) → phi_operands (map_phi f phi) ≡ map f (phi_operands phi) }
{}

/// Typing accepts exactly the walks of a `getelementptr` into a type of fewer than 2^31 nodes for which layout has
/// strides, where each index that adds a field's offset is a number of i32.
pub fn walks_have_strides()
    ensures { (ty : Ty) (indices : List (Scalar × Operand)) → nodes ty < 2 ^ 31
        → IsWalk ty indices ↔ IsSomeAnd (strides ty (map index_of indices)) (SuitStrides indices) }
{}

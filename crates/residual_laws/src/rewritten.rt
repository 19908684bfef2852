//! What stays so of bodies that are written with other operands. These functions do nothing: what they ensure is the law.
ghost use Rattle.std.specs.Prelude.{◌≡◌, ℕ, Bool, false, IsTrue, List, Option, map};
ghost use Rattle.ir_types.specs.declared.scalar.Scalar.{Scalar};
ghost use Rattle.ir_types.specs.declared.scalar.Scalar.TheVariants.{Ptr};
ghost use Rattle.ir_types.specs.declared.scalar.FnType.{FnType};
ghost use Rattle.ir_syntax.specs.declared.constant.Const.TheBlock.{Int};
ghost use Rattle.ir_syntax.specs.declared.body.Arg.{Arg};
ghost use Rattle.ir_syntax.specs.Callees.{written_callee};
ghost use Rattle.ir_syntax.specs.declared.constant.Operand.{Operand};
ghost use Rattle.ir_syntax.specs.declared.constant.Operand.TheVariants as operand;
ghost use Rattle.ir_syntax.specs.declared.body.Inst.{Inst};
ghost use Rattle.ir_syntax.specs.declared.body.Phi.{Phi};
ghost use Rattle.ir_syntax.specs.declared.body.Term.{Term};
ghost use Rattle.ir_syntax.specs.declared.body.Block.{Block};
ghost use Rattle.ir_syntax.specs.declared.body.Body.{Body};
ghost use Rattle.ir_syntax.specs.declared.item.Item.{Item};
ghost use Rattle.ir_syntax.specs.Definite.{DefiniteBody};
ghost use Rattle.ir_syntax.specs.Edges.{edges};
ghost use Rattle.ir_syntax.specs.FormedBody.{Places, IsOperand, FormedCall, names_intrinsic, FormedInst, FormedPhi, FormedTerm, FormedBody, places_of};
ghost use Rattle.ir_syntax.specs.Mapped.{map_arg, map_operands, map_phi, map_term};
ghost use Rattle.ir_syntax.specs.Typed.{Types, TypedCall, CalleeSuits, TypedInst, TypedPhi, TypedTerm, TypedBody};
ghost use Rattle.interface.specs.Masks.{chosen};
ghost use Rattle.residual_laws.specs.Mapping.{IsLikeIn, Keeps, IsNoCall, IsKeptBy, written_body};

/// A body that has the results, the ways and no other uses than a definite one is definite: so it may be written with other names,
/// other parameters, and calls with fewer arguments.
pub fn definite_definition_is_kept()
    ensures { (before after : Body) → IsLikeIn before after → DefiniteBody before → DefiniteBody after }
{}

/// Instructions that aren't calls, phis and terminators that are formed and typed are so with their operands mapped, where each
/// operand is one of the other body then, and of its type. A phi's block must have the same edges there.
pub fn mapped_parts_fit()
    ensures insts { (places later : Places) (types typed : Types) (f : Operand → Operand) (inst : Inst)
        → Keeps places types later typed f → IsNoCall inst → FormedInst places inst → TypedInst types inst
        → FormedInst later (map_operands f inst) × TypedInst typed (map_operands f inst) }
    ensures phis { (places later : Places) (types typed : Types) (f : Operand → Operand) (blocks others : List Block) (place : ℕ) (phi : Phi)
        → Keeps places types later typed f → ((from : ℕ) → edges others from place ≡ edges blocks from place)
        → FormedPhi places phi → TypedPhi types blocks place phi
        → FormedPhi later (map_phi f phi) × TypedPhi typed others place (map_phi f phi) }
    ensures terms { (places later : Places) (types typed : Types) (f : Operand → Operand) (returns : Option Scalar) (term : Term)
        → Keeps places types later typed f → FormedTerm places term → TypedTerm types returns term
        → FormedTerm later (map_term f term) × TypedTerm typed returns (map_term f term) }
{}

/// A call that is formed and typed is so with its operands mapped, where the other callee is formed, suits, and is no intrinsic's
/// name where the callee was none (`whole`); and with the arguments that a mask chooses, where the other callee takes just those
/// (`chosen`), if the function isn't variadic.
pub fn mapped_calls_fit()
    ensures whole { (places later : Places) (types typed : Types) (f : Operand → Operand) (fn_ty : FnType) (callee other : Operand) (args : List Arg)
        → Keeps places types later typed f → f (operand.Const (Int 0)) ≡ operand.Const (Int 0)
        → IsOperand later Ptr other → CalleeSuits typed fn_ty other (written_callee other)
        → (IsTrue (names_intrinsic later.items other) → IsTrue (names_intrinsic places.items callee))
        → FormedCall places fn_ty callee args → TypedCall types fn_ty callee args
        → FormedCall later fn_ty other (map (map_arg f) args) × TypedCall typed fn_ty other (map (map_arg f) args) }
    ensures chosen { (places later : Places) (types typed : Types) (f : Operand → Operand) (fn_ty : FnType) (callee other : Operand) (args : List Arg) (mask : List Bool)
        → Keeps places types later typed f → fn_ty.variadic ≡ false
        → IsOperand later Ptr other → CalleeSuits typed (record fn_ty { params = chosen mask fn_ty.params }) other (written_callee other)
        → names_intrinsic later.items other ≡ false → FormedCall places fn_ty callee args → TypedCall types fn_ty callee args
        → FormedCall later (record fn_ty { params = chosen mask fn_ty.params }) other (map (map_arg f) (chosen mask args))
        × TypedCall typed (record fn_ty { params = chosen mask fn_ty.params }) other (map (map_arg f) (chosen mask args)) }
{}

/// A body that is formed and typed is so with its operands mapped and with other instructions, where each operand is one of the
/// other body then, and each instruction formed and typed.
pub fn written_bodies_fit()
    ensures { (items others : List Item) (params fewer : ℕ) (types typed : Types) (f : Operand → Operand) (g : Inst → Inst) (returns : Option Scalar) (body : Body)
        → Keeps (places_of items params body) types (places_of others fewer (written_body f g body)) typed f
        → IsKeptBy (places_of items params body) types (places_of others fewer (written_body f g body)) typed g
        → FormedBody items params body → TypedBody types returns body.blocks
        → FormedBody others fewer (written_body f g body) × TypedBody typed returns (written_body f g body).blocks }
{}

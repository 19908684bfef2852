//! What holds of calls that are read. These functions do nothing: what they ensure is the law.
ghost use Rattle.std.specs.Prelude.{◌≡◌, ◌∷◌, [], ℕ, Bool, List, Option, Some, None, All};
ghost use Rattle.std.specs.List.{AllZip};
ghost use Rattle.ir_types.specs.declared.scalar.Scalar.{Scalar};
ghost use Rattle.ir_syntax.specs.declared.symbol.Sym.{Sym};
ghost use Rattle.ir_syntax.specs.declared.constant.Operand.{Operand};
ghost use Rattle.ir_syntax.specs.declared.body.Inst.{Inst};
ghost use Rattle.ir_syntax.specs.Programs.{ProgramData, IsProgram};
ghost use Rattle.ir_syntax.specs.Results.{result_type};
ghost use Rattle.block_memory.specs.declared.value.Val.{Val};
ghost use Rattle.block_memory.specs.Answers.{Gives};
ghost use Rattle.block_memory.specs.Blocks.{MemoryData};
ghost use Rattle.ir_steps.specs.declared.session.Reply.{Reply};
ghost use Rattle.ir_steps.specs.declared.session.Stepped.{Stepped};
ghost use Rattle.ir_steps.specs.declared.session.Stepped.TheVariants as stepped;
ghost use Rattle.ir_steps.specs.States.{Frame, StateData};
ghost use Rattle.ir_steps.specs.Operands.{value_in};
ghost use Rattle.ir_steps.specs.Reading.{evaluated};
ghost use Rattle.ir_steps.specs.Results.{with_result};
ghost use Rattle.ir_steps.specs.Steps.{step};
ghost use Rattle.fold_facts.specs.Instructions.{inst_fact};
ghost use Rattle.fold_facts.specs.Operands.{operand_fact};
ghost use Rattle.session_runs.specs.declared.session.Session.{Session};
ghost use Rattle.session_runs.specs.Conforming.{Conforms};
ghost use Rattle.session_runs.specs.Following.{Followed, follow, kinds_by};
ghost use Rattle.known_values.specs.Suits.{Suits};
ghost use Rattle.known_values.specs.Readings.{Reading, IsReading, setting_of};
ghost use Rattle.known_values.specs.Frames.{IsFrameOf, IsFrameAs};
ghost use Rattle.known_values.specs.Views.{view};

/// The value of an operand is as its fact says.
pub fn operands_are_as_read()
    ensures { (p : ProgramData) (r : Reading) (f : Frame) (o : Operand) (v : Val Sym) → IsFrameOf r f → value_in p f o ≡ Some v → Suits (operand_fact (setting_of r) r.assigned.facts o) v }
{}

/// The value of an instruction that only reads is as the instruction says.
pub fn instructions_are_as_read()
    ensures { (p : ProgramData) (r : Reading) (f : Frame) (mem : MemoryData) (inst : Inst) (v : Val Sym) → IsFrameOf r f → evaluated p f mem inst ≡ Gives v
        → Suits (inst_fact (setting_of r) r.assigned.facts inst) v }
{}

/// A call that goes on behind an instruction is as is read, and so is one that goes to another block.
pub fn branches_are_as_read()
    ensures results { (p : ProgramData) (r : Reading) (f : Frame) (inst : Inst) (behind : List Inst) (ty : Scalar) (v : Val Sym) → IsReading p r → IsFrameOf r f → f.rest ≡ inst ∷ behind
        → result_type inst ≡ Some ty → Suits (inst_fact (setting_of r) r.assigned.facts inst) v → IsFrameOf r (with_result f behind v) }
    ensures blocks { (p : ProgramData) (r : Reading) (f g : Frame) (below : List Frame) (mem : MemoryData) (next : StateData) → IsProgram p → IsReading p r → IsFrameOf r f → f.rest ≡ []
        → step p (record { frames = f ∷ below; memory = mem }) None ≡ Gives (stepped.Went, next) → next.frames ≡ g ∷ below → IsFrameOf r g }
{}

/// Steps keep it: calls that are as they are read are so after each step.
pub fn steps_are_as_read()
    ensures { (p : ProgramData) (cycles : List (List Bool)) (readings : List Reading) (kinds : List (Option Reading)) (s next : StateData) (given : Option Reply) (a : Stepped) → IsProgram p → All (IsReading p) readings
        → AllZip (IsFrameAs p) kinds s.frames → step p s given ≡ Gives (a, next) → AllZip (IsFrameAs p) (kinds_by (view p cycles readings) kinds s.frames next.frames) next.frames }
{}

/// In every session that conforms to the deployment, after any number of steps in which no undefined behaviour was met, each call is as
/// it is read: known parameters and known results have their values, and no result that isn't reached is set.
pub fn runs_are_as_read()
    ensures { (p : ProgramData) (cycles : List (List Bool)) (readings : List Reading) (s : Session) (n : ℕ) (x : Followed (Option Reading)) → IsProgram p → All (IsReading p) readings → Conforms p s
        → follow (view p cycles readings) p s n ≡ Some x → AllZip (IsFrameAs p) x.kinds x.at.state.frames }
{}

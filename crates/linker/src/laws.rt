//! What holds of refusals. These functions do nothing: what they ensure is the law.
ghost use Rattle.std.specs.Prelude.{◌≡◌, ℕ, List};
ghost use Rattle.ir_syntax.specs.declared.item.Module.{Module};
ghost use Rattle.ir_syntax.specs.Refusals.{Deployment, Rule, IsRefused};
ghost use Rattle.ir_syntax.specs.Programs.{ProgramData, Linked};

/// Linking refuses one rule and one name at most.
pub fn a_refusal_is_one()
    ensures { (modules : List Module) (d : Deployment) (rule other_rule : Rule) (name other_name : List ℕ)
        → IsRefused modules d rule name → IsRefused modules d other_rule other_name → (rule ≡ other_rule) × (name ≡ other_name) }
{}

/// What is linked isn't refused.
pub fn a_linked_program_is_not_refused()
    ensures { (modules : List Module) (d : Deployment) (p : ProgramData) (rule : Rule) (name : List ℕ)
        → Linked modules d p → IsRefused modules d rule name → ⊥ }
{}

//! A law of loading. It is the contract of a function that does nothing.
ghost use Rattle.std.specs.Prelude.{◌≡◌, ℕ, List};
ghost use Rattle.occam_base.specs.Files.{FileMap};
ghost use Rattle.manifest.specs.declared.fault.Manifest.{Manifest};
ghost use Rattle.ir_syntax.specs.Programs.{ProgramData};
ghost use Rattle.program_loader.specs.declared.refusal.Refusal.{Refusal};
ghost use Rattle.program_loader.specs.Loading.{IsLoaded, RefusesLoading};

use ir_lexer::bad_byte_is_one;
use ir_parser::{a_spelled_text_has_no_cause, a_text_spells_one_module, the_cause_is_one_entity};
use linker::{a_linked_program_is_not_refused, a_refusal_is_one};
use manifest::text_has_one_answer;

/// The files give one answer at most: one manifest with its modules, or one refusal, and not both.
pub fn files_give_one_answer()
    ensures manifest { (files : FileMap) (name : List ℕ) (m n : Manifest) (p q : ProgramData) → IsLoaded files name m p → IsLoaded files name n q → m ≡ n }
    ensures modules { (files : FileMap) (name : List ℕ) (m n : Manifest) (p q : ProgramData) → IsLoaded files name m p → IsLoaded files name n q → p.modules ≡ q.modules }
    ensures refusal { (files : FileMap) (name : List ℕ) (r s : Refusal) → RefusesLoading files name r → RefusesLoading files name s → r ≡ s }
    ensures apart { (files : FileMap) (name : List ℕ) (m : Manifest) (p : ProgramData) (r : Refusal) → IsLoaded files name m p → RefusesLoading files name r → ⊥ }
{
    text_has_one_answer();
    bad_byte_is_one();
    a_text_spells_one_module();
    a_spelled_text_has_no_cause();
    the_cause_is_one_entity();
    a_refusal_is_one();
    a_linked_program_is_not_refused();
}

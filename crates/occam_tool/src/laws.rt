//! A law of the outcome. It is the contract of a function that does nothing.
ghost use Rattle.std.specs.Prelude.{◌≡◌, ℕ, List, Option};
ghost use Rattle.command_words.specs.Words.{command_of, IsRun};
ghost use Rattle.occam_base.specs.declared.code.Code.{Code as Status};
ghost use Rattle.occam_base.specs.Files.{FileMap};
ghost use Rattle.occam_tool.specs.Outcome.{Outputs};
ghost use Rattle.occam_tool.specs.Program.{IsOutcome};

use manifest::text_has_one_answer;
use program_loader::files_give_one_answer;
use straight_fold::{limits_are_apart, plans_are_one};
use straight_reader::the_form_is_straight;

/// Words of any command but `run` have one outcome at most over the files: a status, what is put, and what is printed.
pub fn outcome_is_one()
    ensures status { (words : List (List ℕ)) (files : FileMap) (source : Option (List ℕ)) (s t : Status) (o p : Outputs) (k l : List ℕ) → (IsRun (command_of words) → ⊥) → IsOutcome words files source s o k → IsOutcome words files source t p l → s ≡ t }
    ensures outputs { (words : List (List ℕ)) (files : FileMap) (source : Option (List ℕ)) (s t : Status) (o p : Outputs) (k l : List ℕ) → (IsRun (command_of words) → ⊥) → IsOutcome words files source s o k → IsOutcome words files source t p l → o ≡ p }
    ensures printed { (words : List (List ℕ)) (files : FileMap) (source : Option (List ℕ)) (s t : Status) (o p : Outputs) (k l : List ℕ) → (IsRun (command_of words) → ⊥) → IsOutcome words files source s o k → IsOutcome words files source t p l → k ≡ l }
{
    the_form_is_straight();
    text_has_one_answer();
    files_give_one_answer();
    plans_are_one();
    limits_are_apart();
}

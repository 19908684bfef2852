//! Laws of the form. This function does nothing: what it ensures are the laws.
ghost use Rattle.std.specs.Prelude.{◌≡◌, ℕ, List, All, IsTrue};
ghost use Rattle.ir_syntax.specs.declared.item.Module.{Module};
ghost use Rattle.ir_syntax.specs.FormedBody.{item_name};
ghost use Rattle.ir_syntax.specs.Straight.{IsStraight};
ghost use Rattle.straight_form.specs.Names.{is_plain_name};
ghost use Rattle.straight_form.specs.Form.{IsStraightForm};
ghost use Rattle.straight_reader.specs.Entered.{HasEntry};

use ir_lexer::tokens_are_one;

/// What the module of a text of the form is like.
pub fn the_form_is_straight()
    // Each function is one block of additions and calls of later functions.
    ensures straight { (text entry : List ℕ) (count : ℕ) (m : Module) → IsStraightForm text entry count m → IsStraight m }
    // The entry is a function that other modules see, with so many parameters.
    ensures entered { (text entry : List ℕ) (count : ℕ) (m : Module) → IsStraightForm text entry count m → HasEntry m entry count }
    // Names are plain.
    ensures plain { (text entry : List ℕ) (count : ℕ) (m : Module) → IsStraightForm text entry count m → All (λ i. IsTrue (is_plain_name (item_name i))) m.items }
    // A text is of the form in one way at most.
    ensures one { (text entry : List ℕ) (count : ℕ) (m n : Module) → IsStraightForm text entry count m → IsStraightForm text entry count n → m ≡ n }
{
    tokens_are_one();
}

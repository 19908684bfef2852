//! Modules worked by hand, as a law.
ghost use Rattle.std.specs.Prelude.{◌≡◌, Some, None, ◌∷◌, []};
ghost use Rattle.ir_types.specs.declared.scalar.Scalar.TheVariants.{I32};
ghost use Rattle.ir_types.specs.declared.scalar.Known.TheVariants.{Unknown, Num};
ghost use Rattle.straight_plan.specs.Left.{left_module};
ghost use Rattle.straight_meaning.specs.declared.value.Val.TheVariants as val;
ghost use Rattle.straight_meaning.specs.Step.{sum};
ghost use Rattle.straight_meaning.specs.Run.{run, Conforms};
ghost use Rattle.straight_meaning.specs.Kept.{session_in, kept_steps, longest_block};
ghost use Rattle.straight_meaning.specs.Lawful.{IsFor};
ghost use Rattle.straight_meaning.specs.Worked.{whole, start, plan, left, main_alone, wrong_copy, folded, folded_plan, folded_left, known_start, known_plan, known_left, one_call, returned, running};

/// `main` calls `add` with 3 and its argument 4 and returns 7 after four steps, and so it does where a copy of `add`
/// is left that knows the 3. Without the copy no step fits, and with another number the result is another. Of two
/// additions the first is left out where its operands are numbers, and both where the argument is known too.
pub fn worked_row()
    ensures wraps { sum I32 (val.Num 4294967295) (val.Num 3) ≡ Some (val.Num 2) }
    ensures lawful { IsFor whole 0 (Unknown ∷ []) start plan }
    ensures conforms { Conforms 0 (Unknown ∷ []) one_call }
    ensures left { left_module whole start plan ≡ left }
    ensures three_steps { run whole one_call 3 ≡ Some (running 3) }
    ensures four_steps { run whole one_call 4 ≡ Some (returned 7 4) }
    ensures kept { kept_steps whole start plan one_call 4 ≡ 4 }
    ensures left_three_steps { run left (session_in whole left one_call) 3 ≡ Some (running 3) }
    ensures left_four_steps { run left (session_in whole left one_call) 4 ≡ Some (returned 7 4) }
    ensures copy_is_missing { run main_alone one_call 1 ≡ None }
    ensures copy_is_wrong { run wrong_copy one_call 4 ≡ Some (returned 6 4) }
    ensures folded_lawful { IsFor folded 0 (Unknown ∷ []) start folded_plan }
    ensures folded_left { left_module folded start folded_plan ≡ folded_left }
    ensures folded_steps { run folded one_call 3 ≡ Some (returned 7 3) }
    ensures first_is_left_out { kept_steps folded start folded_plan one_call 1 ≡ 0 }
    ensures folded_kept { kept_steps folded start folded_plan one_call 3 ≡ 2 }
    ensures folded_left_steps { run folded_left (session_in folded folded_left one_call) 2 ≡ Some (returned 7 2) }
    ensures known_lawful { IsFor folded 0 (Num 4 ∷ []) known_start known_plan }
    ensures known_conforms { Conforms 0 (Num 4 ∷ []) one_call }
    ensures known_left { left_module folded known_start known_plan ≡ known_left }
    ensures known_kept { kept_steps folded known_start known_plan one_call 3 ≡ 1 }
    ensures known_left_steps { run known_left (session_in folded known_left one_call) 1 ≡ Some (returned 7 1) }
    ensures longest { longest_block folded ≡ 3 }
{}

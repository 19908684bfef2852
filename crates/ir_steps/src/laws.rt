//! What holds of the steps of every program, and what comes of programs that are worked by hand. These functions do nothing:
//! what they ensure is the law.
ghost use Rattle.std.specs.Prelude.{◌≡◌, ◌≢◌, ◌∷◌, [], Some, true, false};
ghost use Rattle.int_ops.specs.declared.cause.Cause.TheVariants as cause;
ghost use Rattle.block_memory.specs.declared.value.Val.TheVariants as val;
ghost use Rattle.block_memory.specs.Answers.{Gives, Undefined};
ghost use Rattle.ir_steps.specs.declared.session.Reply.TheVariants as reply;
ghost use Rattle.ir_steps.specs.declared.session.ReplyVal.TheVariants as reply_value;
ghost use Rattle.ir_steps.specs.declared.session.Stepped.TheVariants as stepped;
ghost use Rattle.ir_steps.specs.NeverStuck.{ProgramsStart, RootsAreEntered, NeverStuck};
ghost use Rattle.ir_steps.specs.WorkedPrograms.{outcome, silent, recursive, overflowing, dividing, swapping, outliving, freeing, asking};

/// A linked program is never stuck. It has a memory to start with; in each state that calls of roots and steps lead to, with
/// any replies, a root can be called, and where a call is running, a step completes, wants a reply, or has a cause of undefined
/// behaviour.
pub fn never_stuck()
    ensures starts { ProgramsStart }
    ensures enters { RootsAreEntered }
    ensures steps { NeverStuck }
{}

/// What comes of small programs, worked by hand: values that are returned, after how many steps, causes, and replies.
pub fn programs_worked_by_hand()
    ensures factorial { outcome recursive [] (silent 35) ≡ Gives (stepped.Returned (Some (val.Num 120))) }
    ensures not_sooner { outcome recursive [] (silent 34) ≡ Gives stepped.Went }
    ensures poison { outcome overflowing [] (silent 4) ≡ Gives (stepped.Returned (Some val.Poison)) }
    ensures not_wrapped { outcome overflowing [] (silent 4) ≢ Gives (stepped.Returned (Some (val.Num 0))) }
    ensures undefined { outcome dividing (1 ∷ 1 ∷ 8 ∷ 0 ∷ []) (silent 3) ≡ Undefined cause.DivideByZero }
    ensures not_taken { outcome dividing (1 ∷ 2 ∷ 8 ∷ 0 ∷ []) (silent 3) ≡ Gives (stepped.Returned (Some (val.Num 8))) }
    ensures swapped { outcome swapping (3 ∷ 5 ∷ 2 ∷ []) (silent 8) ≡ Gives (stepped.Returned (Some (val.Num 5))) }
    ensures not_one_by_one { outcome swapping (3 ∷ 5 ∷ 0 ∷ []) (silent 8) ≡ Gives stepped.Went }
    ensures ended { outcome outliving [] (silent 4) ≡ Undefined cause.EndedBlock }
    ensures freed { outcome freeing [] (Some (reply.Grant true) ∷ silent 4) ≡ Gives (stepped.Returned (Some (val.Num 7))) }
    ensures refused { outcome freeing [] (Some (reply.Grant false) ∷ silent 1) ≡ Undefined cause.NullAddress }
    ensures replied { outcome asking [] (Some (reply.Give (reply_value.Num 9) []) ∷ silent 1) ≡ Gives (stepped.Returned (Some (val.Num 9))) }
    ensures bad_reply { outcome asking [] (Some (reply.Grant true) ∷ []) ≡ Undefined cause.BadReply }
{}

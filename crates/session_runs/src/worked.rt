//! Runs that are worked by hand. The function does nothing: what it ensures is what they show.
ghost use Rattle.std.specs.Prelude.{◌≡◌, ◌∷◌, [], Some, true, codes};
ghost use Rattle.int_ops.specs.declared.cause.Cause.TheVariants as cause;
ghost use Rattle.block_memory.specs.declared.value.Val.TheVariants as val;
ghost use Rattle.ir_steps.specs.declared.session.Reply.TheVariants as reply;
ghost use Rattle.ir_steps.specs.declared.session.ReplyVal.TheVariants as reply_value;
ghost use Rattle.ir_steps.specs.WorkedPrograms.{recursive, overflowing, dividing, outliving, freeing, asking};
ghost use Rattle.session_runs.specs.declared.session.Event.TheVariants as event;
ghost use Rattle.session_runs.specs.declared.session.Phase.TheVariants as phase;
ghost use Rattle.session_runs.specs.Runs.{run};
ghost use Rattle.session_runs.specs.WorkedRuns.{once, twice, shows, returned, ask_five, malloc_four};

/// What sessions of small programs show, worked by hand: each phase, the steps that are counted, and the trace.
pub fn runs_worked_by_hand()
    ensures finished { run recursive (once recursive [] []) 100 ≡ shows (returned 120 ∷ []) phase.Finished 35 }
    ensures just_finished { run recursive (once recursive [] []) 35 ≡ shows (returned 120 ∷ []) phase.Finished 35 }
    ensures running { run recursive (once recursive [] []) 34 ≡ shows [] phase.Running 34 }
    ensures poison { run overflowing (once overflowing [] []) 10 ≡ shows (event.Returned (Some val.Poison) ∷ []) phase.Finished 4 }
    // the step that is undefined isn't counted
    ensures undefined { run dividing (once dividing (1 ∷ 1 ∷ 8 ∷ 0 ∷ []) []) 9 ≡ shows [] (phase.Undefined cause.DivideByZero) 2 }
    ensures ended { run outliving (once outliving [] []) 9 ≡ shows [] (phase.Undefined cause.EndedBlock) 3 }
    // `free` isn't in the trace
    ensures freed { run freeing (once freeing [] (reply.Grant true ∷ [])) 9 ≡ shows (event.Asked malloc_four (reply.Grant true) ∷ returned 7 ∷ []) phase.Finished 5 }
    ensures waiting { run asking (once asking [] []) 5 ≡ shows [] (phase.Waiting (codes "ask")) 0 }
    ensures not_asked { run asking (once asking [] []) 0 ≡ shows [] phase.Running 0 }
    ensures bad_reply { run asking (once asking [] (reply.Grant true ∷ [])) 5 ≡ shows (event.Asked ask_five (reply.Grant true) ∷ []) (phase.Undefined cause.BadReply) 0 }
    // the second call of the entry comes directly after the step that returns from the first
    ensures again { run asking (twice asking (reply.Give (reply_value.Num 9) [] ∷ [])) 9
        ≡ shows (event.Asked ask_five (reply.Give (reply_value.Num 9) []) ∷ returned 9 ∷ []) (phase.Waiting (codes "ask")) 2 }
    ensures no_step_between { run asking (twice asking (reply.Give (reply_value.Num 9) [] ∷ reply.Give (reply_value.Num 8) [] ∷ [])) 4
        ≡ shows (event.Asked ask_five (reply.Give (reply_value.Num 9) []) ∷ returned 9 ∷ event.Asked ask_five (reply.Give (reply_value.Num 8) []) ∷ returned 8 ∷ []) phase.Finished 4 }
{}

//! A run on its way.
ghost use Rattle.std.specs.Prelude.{◌≡◌, ◌≤◌, ◌<◌, ◌+◌, ◌-◌, ◌^◌, ◌&&◌, nat_lt, List, [], Some, IfOk, OnOk};
ghost use Rattle.ir_syntax.specs.Programs.{ProgramData};
ghost use Rattle.ir_steps.specs.declared.session.Reply.{Reply};
ghost use Rattle.ir_meaning.specs.Models.{state_of};
ghost use Rattle.ir_meaning.specs.Kept.{IsStateOf};
ghost use Rattle.session_runs.specs.Runs.{is_running, starts, enters};
ghost use Rattle.session_runs.specs.Worlds.{session};
ghost use Rattle.session_runs.specs.Mirrors.Progressing.{standing, AreRoots, IsGoing, Wants, Begins, Replies, Waits, IsBehind, Completes};

use crate::endings::{abort_call, exit_call};
use crate::{Event, Phase, Root, Run};
use ir_meaning::{Reply, State, Stepped, Wanted, step};
use ir_syntax::Program;
use ir_types::OutOfMemory;
use sqlite_items::Items as List;
use std::alloc::Global;

/// A run so far: the program's state, the roots that are still to come, the trace, the phase, and how many steps were
/// completed.
#[derive(Drop)]
pub(crate) struct Progress<'s> {
    pub(crate) state: State,
    pub(crate) roots: &'s [Root],
    pub(crate) trace: List<Event>,
    pub(crate) phase: Phase,
    pub(crate) steps: u64,
}

impl<'s> Progress<'s> {
    /// A run at its start: the first of the roots is entered.
    pub(crate) fn start(
        alloc: Global,
        p: &Program,
        roots: &'s [Root],
    ) -> Result<Progress<'s>, OutOfMemory>
        requires roots { AreRoots p.now roots.now }
        ensures starts { IfOk result (λ q. (replies : List Reply) → starts p.now (session roots.now replies) ≡ Some (standing p.now q replies)) }
        ensures going { IfOk result (λ q. IsGoing p.now q) }
        ensures steps { IfOk result (λ q. q.steps ≡ 0) }
    {
        let state = State::start(alloc, p)?;
        let mut progress = Progress {
            state,
            roots,
            trace: List::new(alloc),
            phase: Phase::Running,
            steps: 0,
        };
        progress.enter_next(alloc, p)?;
        Ok(progress)
    }

    /// Enters the next root. Where there is none the run has finished.
    fn enter_next(&mut self, alloc: Global, p: &Program) -> Result<(), OutOfMemory>
        requires state { IsStateOf p.now self.old.state }
        requires idle { (state_of p.now self.old.state).frames ≡ [] }
        requires roots { AreRoots p.now self.old.roots.now }
        requires running { self.old.phase ≡ Phase.Running }
        ensures entered { OnOk result ((replies : List Reply) → enters p.now (standing p.now self.old replies) self.old.roots.now ≡ Some (standing p.now self.new replies)) }
        ensures going { OnOk result (IsGoing p.now self.new) }
        ensures steps { self.new.steps ≡ self.old.steps }
    {
        match self.roots.split_first() {
            None => self.phase = Phase::Finished,
            Some((root, rest)) => {
                self.state.enter(alloc, p, root.func, root.args.as_slice())?;
                self.roots = rest;
            }
        }
        Ok(())
    }

    /// Whether the run goes on.
    pub(crate) fn is_running(&self) -> bool
        ensures { result ≡ is_running self.now.phase }
    {
        match self.phase {
            Phase::Running => true,
            Phase::Waiting(_) => false,
            Phase::Finished => false,
            Phase::Exited(_) => false,
            Phase::Aborted => false,
            Phase::Undefined(_) => false,
        }
    }

    /// Whether the run begins one step more, where `at` of at most `n` were begun.
    pub(crate) fn goes_on(&self, at: u64, n: u64) -> bool
        ensures { result ≡ (nat_lt at n && is_running self.now.phase) }
    {
        at < n && self.is_running()
    }

    /// Begins a step. Where the call at hand wants a reply that is the call, and nothing has changed.
    pub(crate) fn begin(
        &mut self,
        alloc: Global,
        p: &Program,
    ) -> Result<Option<Wanted>, OutOfMemory>
        requires going { IsGoing p.now self.old }
        requires running { self.old.phase ≡ Phase.Running }
        requires room { self.old.steps < 2 ^ 64 - 1 }
        ensures wanted { IfOk result (λ call. Wants p.now self.old call) }
        ensures begun { IfOk result (λ call. Begins p.now self.old call self.new) }
        ensures going { OnOk result (IsGoing p.now self.new) }
        ensures steps { self.new.steps ≤ self.old.steps + 1 }
    {
        match step(alloc, p, &mut self.state, None)? {
            Stepped::Wants(call) => Ok(Some(call)),
            stepped => {
                self.complete(alloc, p, stepped)?;
                Ok(None)
            }
        }
    }

    /// Gives the call at hand its reply.
    pub(crate) fn reply(
        &mut self,
        alloc: Global,
        p: &Program,
        call: Wanted,
        reply: Reply,
    ) -> Result<(), OutOfMemory>
        requires going { IsGoing p.now self.old }
        requires running { self.old.phase ≡ Phase.Running }
        requires room { self.old.steps < 2 ^ 64 - 1 }
        requires wanted { Wants p.now self.old (Some call) }
        ensures replied { OnOk result (Replies p.now self.old reply self.new) }
        ensures going { OnOk result (IsGoing p.now self.new) }
        ensures steps { self.new.steps ≤ self.old.steps + 1 }
    {
        let stepped = step(alloc, p, &mut self.state, Some(&reply))?;
        self.trace.push(Event::Asked(call, reply))?;
        self.complete(alloc, p, stepped)?;
        Ok(())
    }

    /// The run waits for a reply to the call at hand.
    pub(crate) fn wait(&mut self, call: Wanted)
        ensures waits { (p : ProgramData) → Waits p call self.old self.new }
        ensures state { self.new.state ≡ self.old.state }
        ensures roots { self.new.roots.now ≡ self.old.roots.now }
        ensures phase { self.new.phase ≡ Phase.Waiting call.name }
        ensures steps { self.new.steps ≡ self.old.steps }
    {
        let Wanted {
            name,
            fn_ty: _,
            args: _,
        } = call;
        self.phase = Phase::Waiting(name);
    }

    // The step that led to the state is completed or undefined.
    fn complete(&mut self, alloc: Global, p: &Program, stepped: Stepped) -> Result<(), OutOfMemory>
        requires state { IsStateOf p.now self.old.state }
        requires behind { IsBehind (state_of p.now self.old.state) stepped }
        requires roots { AreRoots p.now self.old.roots.now }
        requires running { self.old.phase ≡ Phase.Running }
        requires room { self.old.steps < 2 ^ 64 - 1 }
        ensures completes { OnOk result (Completes p.now self.old stepped self.new) }
        ensures going { OnOk result (IsGoing p.now self.new) }
        ensures steps { self.new.steps ≤ self.old.steps + 1 }
    {
        match stepped {
            Stepped::Went => {
                self.steps += 1;
                Ok(())
            }
            Stepped::Wants(_) => unreachable!(),
            Stepped::Returned(value) => {
                self.trace.push(Event::Returned(value))?;
                self.steps += 1;
                self.enter_next(alloc, p)
            }
            Stepped::Exited(status) => {
                self.trace.push(exit_call(alloc, status)?)?;
                self.steps += 1;
                self.phase = Phase::Exited(status);
                Ok(())
            }
            Stepped::Aborted => {
                self.trace.push(abort_call(alloc)?)?;
                self.steps += 1;
                self.phase = Phase::Aborted;
                Ok(())
            }
            Stepped::Undefined(why) => {
                self.phase = Phase::Undefined(why);
                Ok(())
            }
        }
    }

    /// What the run has shown.
    pub(crate) fn into_run(self) -> Run
        ensures { result ≡ record { trace = self.entry.trace; phase = self.entry.phase; steps = self.entry.steps } }
    {
        let Progress {
            state: _,
            roots: _,
            trace,
            phase,
            steps,
        } = self;
        Run {
            trace,
            phase,
            steps,
        }
    }
}

//! States of a running program.
ghost use Rattle.std.specs.Prelude.{◌≡◌, IfOk, IsErr, OnErr, OnOk, is_some, None, [], true, false, map};
ghost use Rattle.std.specs.Option.{option_copied};
ghost use Rattle.block_memory.specs.declared.value.Val.TheVariants as val;
ghost use Rattle.ir_syntax.specs.Programs.{IsProgram};
ghost use Rattle.block_memory.specs.Answers.{Gives, IsMeant, and_then, or_stuck};
ghost use Rattle.ir_steps.specs.Calls as calls;
ghost use Rattle.ir_steps.specs.Reached.{IsRoot};
ghost use Rattle.ir_steps.specs.Steps as steps;
ghost use Rattle.ir_meaning.specs.Kept.{IsStateOf, IsRunning, IsStepOf};
ghost use Rattle.ir_meaning.specs.Models.{frame_of, state_of};
ghost use Rattle.ir_meaning.specs.Mirrors.Numbering as numbering;
ghost use Rattle.ir_meaning.specs.Mirrors.Outcomes.{is_end, left_by};
ghost use Rattle.ir_meaning.specs.Mirrors.Typing.{Stands};
ghost use Rattle.ir_meaning.specs.Mirrors.Stacks.{stack_of};

use crate::calls::begin;
use crate::halt::Halt;
use crate::stack::Stack;
use crate::steps::run;
use crate::table::{Table, table_of};
use block_memory::{Memory, Val};
use ir_steps::{Reply, Stepped};
use ir_syntax::{Program, Sym};
use ir_types::OutOfMemory;
use sqlite_items::Items as List;
use std::alloc::Global;
use std::marker::Model;

/// A state of a running program: its calls, where one is running, and its memory.
///
/// A call takes the room of its arguments and of one slot for each result of its body. A state that once found no memory
/// has failed: each later call says so again, and changes nothing.
#[derive(Debug, Drop)]
pub struct State {
    stack: Option<Stack>,
    memory: Memory,
    table: Table,
    values: Vec<Val<Sym>>,
    failed: bool,
}

impl Model for State {
    ghost use Rattle.ir_meaning.specs.Models.{StateModel};
    ghost use Rattle.ir_meaning.specs.Mirrors.Stacks.{kept};

    ghost Value = { StateModel };

    ghost view = { λ s. record { stack = kept s.stack; memory = s.memory; firsts = s.table; failed = s.failed } };
}

/// What the type of programs keeps holds of this one.
fn is_linked(p: &Program)
    ensures { IsProgram p.now }
{
    let _modules = p.modules();
}

/// Numbers as values.
fn number_values(alloc: Global, numbers: &[u64]) -> Result<Vec<Val<Sym>>, OutOfMemory>
    ensures { IfOk result (λ values. values.items ≡ map (λ n. val.Num n) numbers.now) }
{
    let mut values = Vec::with_capacity(alloc, numbers.len())?;
    for n in numbers {
        values.push(Val::Num(*n))?;
    }
    Ok(values)
}

/// The call of a root.
fn root(
    alloc: Global,
    p: &Program,
    table: &[List<List<usize>>],
    func: Sym,
    args: &[u64],
) -> Result<Stack, OutOfMemory>
    requires table { table.now ≡ numbering.table_of p.now.modules }
    requires meant { IsMeant (and_then (λ body. calls.begins func body (map (λ n. val.Num n) args.now)) (or_stuck (calls.body_of p.now func))) }
    ensures given { IfOk result (λ stack. and_then (λ body. calls.begins func body (map (λ n. val.Num n) args.now)) (or_stuck (calls.body_of p.now func)) ≡ Gives (frame_of p.now stack.top)) }
    ensures below { IfOk result (λ stack. stack.below.items ≡ []) }
{
    let values = number_values(alloc, args)?;
    Ok(Stack {
        top: begin(alloc, p, table, func, values)?,
        below: Vec::new(alloc),
    })
}

/// Whether the program has ended.
fn ends(stepped: &Stepped) -> bool
    ensures { result ≡ is_end stepped.now }
{
    match stepped {
        Stepped::Went => false,
        Stepped::Wants(_) => false,
        Stepped::Returned(_) => true,
        Stepped::Exited(_) => true,
        Stepped::Aborted => true,
        Stepped::Undefined(_) => true,
    }
}

/// One step of the innermost call, whose answer may be that it is undefined.
#[tactic(auto, using(crate::proofs::Answering::given_is_step))]
fn take_step(
    alloc: Global,
    p: &Program,
    table: &[List<List<usize>>],
    stack: &mut Stack,
    memory: &mut Memory,
    values: &mut Vec<Val<Sym>>,
    reply: Option<&Reply>,
) -> Result<Stepped, OutOfMemory>
    requires table { table.now ≡ numbering.table_of p.now.modules }
    requires stands { Stands p.now stack.old.top }
    requires meant { IsMeant (steps.frames_step p.now memory.old (option_copied reply) (stack_of p.now stack.old)) }
    ensures { IfOk result (λ a. IsStepOf (steps.frames_step p.now memory.old (option_copied reply.entry) (stack_of p.now stack.old)) a (left_by a (stack_of p.now stack.new) memory.new) memory.old) }
{
    match run(alloc, p, table, stack, memory, values, reply) {
        Ok(stepped) => Ok(stepped),
        Err(Halt::Undefined(cause)) => Ok(Stepped::Undefined(cause)),
        Err(Halt::OutOfMemory) => Err(OutOfMemory),
    }
}

impl State {
    /// The state that a program starts with: no call is running. The error is want of memory.
    pub fn start(alloc: Global, p: &Program) -> Result<State, OutOfMemory>
        ensures given { IfOk result (λ s. steps.start p.now ≡ Gives (state_of p.now s)) }
        ensures started { IfOk result (λ s. IsStateOf p.now s) }
        ensures fresh { IfOk result (λ s. s.failed ≡ false) }
    {
        let memory = Memory::start(alloc, p)?;
        let table = table_of(alloc, p.modules())?;
        Ok(State {
            stack: None,
            memory,
            table,
            values: Vec::new(alloc),
            failed: false,
        })
    }

    /// Whether a call is running.
    pub fn is_running(&self) -> bool
        ensures { result ≡ is_some self.now.stack }
    {
        match &self.stack {
            Some(_) => true,
            None => false,
        }
    }

    /// Calls a root: a function with a body, with numbers of the types of its parameters. No call is to be running. The
    /// error is want of memory; after it the state has failed, and each later call answers it too and changes nothing.
    pub fn enter(
        &mut self,
        alloc: Global,
        p: &Program,
        func: Sym,
        args: &[u64],
    ) -> Result<(), OutOfMemory>
        requires started { IsStateOf p.now self.old }
        requires idle { self.old.stack ≡ None }
        requires root { IsRoot p.now func args.now }
        ensures given { OnOk result (steps.enter p.now (state_of p.now self.old) func args.now ≡ Gives (state_of p.now self.new)) }
        ensures still { IsStateOf p.now self.new }
        ensures failed { OnErr result (self.new.failed ≡ true) }
        ensures stays { self.old.failed ≡ true → IsErr result × (self.new ≡ self.old) }
    {
        if self.failed {
            return Err(OutOfMemory);
        }
        is_linked(p);
        match root(alloc, p, self.table.as_slice(), func, args) {
            Ok(stack) => {
                self.stack = Some(stack);
                Ok(())
            }
            Err(fault) => {
                self.failed = true;
                Err(fault)
            }
        }
    }
}

/// One step: an instruction or a terminator of the innermost call. `reply` is looked at only by a call that wants one;
/// without it such a call answers `Wants`, and changes nothing. After `Returned`, `Exited`, `Aborted` or `Undefined` no call
/// is running, and after `Undefined` memory is as it was.
///
/// The error is want of memory; after it the state has failed, and each later call answers it too and changes nothing. A
/// step takes time in proportion to its operands: a branch to the phis of the block that it enters, a call to its arguments
/// and the slots of the function that is called, a return to the allocas of the call.
pub fn step(
    alloc: Global,
    p: &Program,
    s: &mut State,
    reply: Option<&Reply>,
) -> Result<Stepped, OutOfMemory>
    requires started { IsStateOf p.now s.old }
    requires running { IsRunning s.old }
    ensures answer { IfOk result (λ a. IsStepOf (steps.step p.now (state_of p.now s.old) (option_copied reply.entry)) a (state_of p.now s.new) s.old.memory) }
    ensures still { IsStateOf p.now s.new }
    ensures failed { OnErr result (s.new.failed ≡ true) }
    ensures stays { s.old.failed ≡ true → IsErr result × (s.new ≡ s.old) }
{
    if s.failed {
        return Err(OutOfMemory);
    }
    is_linked(p);
    let stepped = match &mut s.stack {
        Some(stack) => take_step(
            alloc,
            p,
            s.table.as_slice(),
            stack,
            &mut s.memory,
            &mut s.values,
            reply,
        ),
        None => unreachable!(),
    };
    match stepped {
        Ok(stepped) => {
            if ends(&stepped) {
                s.stack = None;
                return Ok(stepped);
            }
            Ok(stepped)
        }
        Err(fault) => {
            s.failed = true;
            Err(fault)
        }
    }
}

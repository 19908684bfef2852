//! The module of a plan, and what is left of it.
ghost use Rattle.std.specs.Prelude.{◌≡◌, ◌≤◌, ◌∷◌, [], sum_by, IsUtf8, IfOk, length, slice_get};
ghost use Rattle.ir_syntax.specs.declared.item.Module.{Module as ModuleValue};
ghost use Rattle.demands.specs.Demands.{IsFunctionFor};
ghost use Rattle.straight_plan.specs.Asked.{program_items};
ghost use Rattle.straight_plan.specs.Left.{IsPlan, size_of};
ghost use Rattle.ir_syntax.specs.Straight.{IsStraight};
ghost use Rattle.straight_form.specs.Counts.{instruction_count};
ghost use Rattle.straight_leave.specs.Entries.{IsNotNamed};
ghost use Rattle.program_loader.specs.Refusing.{ReadsAlone, code_of};
ghost use Rattle.occam_tool.specs.Steps.{ModuleGives, IsWrittenLeft, LeavesAt, LeftGives, CanStop};
ghost use Rattle.straight_reader.specs.Entered.{HasEntry};
ghost use Rattle.occam_tool.specs.Entering.{AreWords};
ghost use Rattle.occam_tool.specs.Names.{HavePlainNames};

use crate::counting::count_instructions;
use crate::entering::place_of_entry;
use crate::path::as_text;
use crate::plan::Plan;
use crate::refusing::{not_of_form, of_file, out_of_memory};
use crate::{Refusal, Report};
use fixed_point::FixFault;
use ir_syntax::Module;
use ir_types::{Bytes, Known, OutOfMemory};
use ir_writer::{straight_modules_are_written, write_module};
use occam_base::{Code, Shelf};
use program_loader::{Stop, read_whole};
use std::alloc::Global;
use straight_fold::{least_plan_is_a_plan, plan, root_of};
use straight_leave::{clones, originals, what_is_left_is_straight};
use straight_plan::{Ask, Cut, StraightProgram};
use straight_reader::the_form_is_straight;

const MODULE_LIMIT: usize = 16_777_216;

/// The written text of a module, and its report.
#[derive(Debug, Drop)]
pub struct Left {
    pub text: Bytes,
    pub report: Report,
}

/// Reads the module that the plan names.
pub fn read_module<S: Shelf>(alloc: Global, shelf: &mut S, plan: &Plan) -> Result<Module, Refusal>
    requires { IsUtf8 plan.now.file }
    ensures gives { ModuleGives (S.files shelf.old) plan.now result }
    ensures codes { CanStop (code_of result) }
    ensures alone { ReadsAlone (code_of result) (S.files shelf.old) (S.files shelf.new) (S.read_faults shelf.old) (S.read_faults shelf.new) (S.put_faults shelf.old) (S.put_faults shelf.new) }
    ensures straight { IfOk result IsStraight }
    ensures entered { IfOk result (λ m. HasEntry m plan.now.entry (length plan.now.args)) }
    ensures plain { IfOk result (λ m. HavePlainNames m.items) }
    ensures bounded { IfOk result (λ m. instruction_count m ≤ 16777216) }
{
    the_form_is_straight();
    let name = plan.file.as_slice();
    let text = match read_whole(alloc, shelf, as_text(name), MODULE_LIMIT) {
        Ok(text) => text,
        Err(Stop::Failed) => return Err(of_file(alloc, Code::ReadFault, name)),
        Err(Stop::Absent) => return Err(of_file(alloc, Code::Absent, name)),
        Err(Stop::TooLarge) => return Err(not_of_form(alloc, name)),
        Err(Stop::OutOfMemory) => return Err(out_of_memory()),
    };
    match straight_reader::read(
        alloc,
        text.as_slice(),
        plan.entry.as_slice(),
        plan.args.len(),
    ) {
        Ok(Some(module)) => Ok(module),
        Ok(None) => Err(not_of_form(alloc, name)),
        Err(OutOfMemory) => Err(out_of_memory()),
    }
}

/// What is left of a module for its entry with these arguments, written, and its counts.
pub fn leave(alloc: Global, module: Module, entry: &[u8], args: &[Known]) -> Result<Left, FixFault>
    requires straight { IsStraight «module» }
    requires entered { HasEntry «module» entry.now (length args.now) }
    requires plain { HavePlainNames «module».items }
    requires words { AreWords args.now }
    requires bounded { instruction_count «module» ≤ 16777216 }
    ensures { LeftGives «module» entry.now args.now result }
{
    let before = count_instructions(module.items.as_slice());
    let place = match place_of_entry(module.items.as_slice(), entry) {
        Some(place) => place,
        None => return Err(FixFault::OutOfMemory),
    };
    let program = StraightProgram::of(alloc, module)?;
    leave_program(alloc, &program, place, args, before)
}

// The same for a program of the one module, whose entry stands at a place.
fn leave_program(
    alloc: Global,
    program: &StraightProgram,
    place: usize,
    args: &[Known],
    before: u64,
) -> Result<Left, FixFault>
    requires entry { IsFunctionFor args.now (slice_get (program_items program.now) place) }
    requires plain { HavePlainNames (program_items program.now) }
    requires counted { (m : ModuleValue) → program.now ≡ m ∷ [] → before ≡ instruction_count m }
    ensures { (m : ModuleValue) → program.now ≡ m ∷ [] → LeavesAt m place args.now result }
{
    least_plan_is_a_plan();
    let start = root_of(alloc, program, place, args)?;
    let cuts = plan(alloc, program, place, args)?;
    let module = only_module(program);
    let left = written(alloc, module, &start, cuts.as_slice(), before)?;
    Ok(left)
}

// The one module of a program.
fn only_module(program: &StraightProgram) -> &Module
    ensures only { program.now ≡ result.now ∷ [] }
    ensures straight { IsStraight result.now }
{
    &program.modules()[0]
}

// What a plan leaves of a module, written, and its counts.
fn written(
    alloc: Global,
    module: &Module,
    start: &Ask,
    cuts: &[Cut],
    before: u64,
) -> Result<Left, OutOfMemory>
    requires straight { IsStraight «module».now }
    requires plain { HavePlainNames «module».now.items }
    requires not_named { IsNotNamed «module».now.items start.now }
    requires plan { IsPlan «module».now.items start.now cuts.now }
    requires few { length cuts.now ≤ 65536 }
    requires short { sum_by (size_of «module».now.items) cuts.now ≤ 8388608 }
    requires before { before ≡ instruction_count «module».now }
    ensures { IfOk result (λ left. IsWrittenLeft «module».now start.now cuts.now left) }
{
    what_is_left_is_straight();
    straight_modules_are_written();
    let left = straight_leave::leave(alloc, module, start, cuts)?;
    let text = write_module(alloc, &left)?;
    let report = Report {
        modules: 1,
        originals: originals(start, cuts) as u64,
        clones: clones(start, cuts) as u64,
        globals: 0,
        instructions: count_instructions(left.items.as_slice()),
        before,
    };
    Ok(Left { text, report })
}

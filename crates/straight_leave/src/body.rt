//! What is left of bodies.
ghost use Rattle.std.specs.Prelude.{◌≡◌, map, IfOk};
ghost use Rattle.straight_plan.specs.Residual.{put as put_in, put_inst, residual};
ghost use Rattle.straight_leave.specs.Numbers.{numbered as renumbered};
ghost use Rattle.straight_leave.specs.Places.{place_in as place_among_rows};
ghost use Rattle.straight_leave.specs.Rewritten.{new_inst, new_term, new_block, new_body};

use crate::calls::left_call;
use crate::facts::{fact_at, put, stays};
use crate::numbers::{Site, numbered, numbers_of};
use demand_core::Row;
use indexmap::IndexSet;
use ir_syntax::{Block, Body, Inst, Item, Operand, Term};
use ir_types::{Copied, OutOfMemory};
use sqlite_items::Items as List;
use std::alloc::Global;
use straight_plan::Cut;

/// An operand of what is left: its value where that is known, else by its new number.
fn left_operand(alloc: Global, site: &Site, operand: &Operand) -> Result<Operand, OutOfMemory>
    ensures { IfOk result (λ left. left ≡ renumbered site.now.whole site.now.pattern.now site.now.numbers.now (put_in site.now.pattern.now site.now.facts.now operand.now)) }
{
    let value = put(alloc, site.pattern, site.facts, operand)?;
    Ok(numbered(site, value))
}

/// What is left of an instruction that stays.
fn left_inst(
    alloc: Global,
    items: &[Item],
    rows: &IndexSet<Row>,
    site: &Site,
    inst: &Inst,
) -> Result<Inst, OutOfMemory>
    ensures { IfOk result (λ left. left ≡ new_inst items.now (place_among_rows rows.now.keys) (renumbered site.now.whole site.now.pattern.now site.now.numbers.now)
        (put_inst site.now.pattern.now site.now.facts.now inst.now)) }
{
    match inst {
        Inst::Bin {
            op,
            flags,
            ty,
            a,
            b,
        } => {
            let a = left_operand(alloc, site, a)?;
            let b = left_operand(alloc, site, b)?;
            Ok(Inst::Bin {
                op: *op,
                flags: *flags,
                ty: *ty,
                a,
                b,
            })
        }
        Inst::Icmp { .. } => inst.copied(alloc),
        Inst::Select { .. } => inst.copied(alloc),
        Inst::Cast { .. } => inst.copied(alloc),
        Inst::Alloca { .. } => inst.copied(alloc),
        Inst::Load { .. } => inst.copied(alloc),
        Inst::Store { .. } => inst.copied(alloc),
        Inst::Gep { .. } => inst.copied(alloc),
        Inst::Call {
            fn_ty,
            ret_ext,
            callee,
            args,
        } => left_call(
            alloc,
            items,
            rows,
            site,
            fn_ty,
            *ret_ext,
            callee,
            args.as_slice(),
        ),
    }
}

/// What is left of the instructions of a block, in their order.
fn left_insts(
    alloc: Global,
    items: &[Item],
    rows: &IndexSet<Row>,
    site: &Site,
    insts: &[Inst],
) -> Result<List<Inst>, OutOfMemory>
    ensures { IfOk result (λ left. left ≡ map (new_inst items.now (place_among_rows rows.now.keys) (renumbered site.now.whole site.now.pattern.now site.now.numbers.now))
        (residual site.now.pattern.now site.now.facts.now insts.now)) }
{
    let mut left = List::new(alloc);
    for (k, inst) in insts.iter().enumerate() {
        if stays(fact_at(site.facts, k), inst) {
            left.push(left_inst(alloc, items, rows, site, inst)?)?;
        }
    }
    Ok(left)
}

fn left_term(alloc: Global, site: &Site, term: &Term) -> Result<Term, OutOfMemory>
    ensures { IfOk result (λ left. left ≡ new_term (λ x. renumbered site.now.whole site.now.pattern.now site.now.numbers.now (put_in site.now.pattern.now site.now.facts.now x)) term.now) }
{
    match term {
        Term::RetVoid => Ok(Term::RetVoid),
        Term::Ret(ty, value) => Ok(Term::Ret(*ty, left_operand(alloc, site, value)?)),
        Term::Br(_) => term.copied(alloc),
        Term::CondBr(_, _, _) => term.copied(alloc),
        Term::Switch { .. } => term.copied(alloc),
        Term::Unreachable => Ok(Term::Unreachable),
    }
}

fn left_block(
    alloc: Global,
    items: &[Item],
    rows: &IndexSet<Row>,
    whole: bool,
    cut: &Cut,
    block: &Block,
) -> Result<Block, OutOfMemory>
    ensures { IfOk result (λ left. left ≡ new_block items.now (place_among_rows rows.now.keys) whole cut.now block.now) }
{
    let insts = block.insts.as_slice();
    let numbers = numbers_of(alloc, cut.facts.as_slice(), insts)?;
    let site = Site {
        pattern: cut.ask.pattern.items(),
        facts: cut.facts.as_slice(),
        numbers: numbers.as_slice(),
        whole,
    };
    Ok(Block {
        phis: block.phis.copied(alloc)?,
        insts: left_insts(alloc, items, rows, &site, insts)?,
        term: left_term(alloc, &site, &block.term)?,
    })
}

/// What is left of a body. `whole` says that all parameters are left.
pub(crate) fn left_body(
    alloc: Global,
    items: &[Item],
    rows: &IndexSet<Row>,
    whole: bool,
    cut: &Cut,
    body: &Body,
) -> Result<Body, OutOfMemory>
    ensures { IfOk result (λ left. left ≡ new_body items.now (place_among_rows rows.now.keys) whole cut.now body.now) }
{
    let mut blocks = List::new(alloc);
    for block in body.blocks.as_slice() {
        blocks.push(left_block(alloc, items, rows, whole, cut, block)?)?;
    }
    Ok(Body { blocks })
}

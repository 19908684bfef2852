//! The graph of the calls between functions.
ghost use Rattle.std.specs.Prelude.{◌≡◌, [], ◌∷◌, ◌++◌, IfOk, OnOk, length, flat_map};
ghost use Rattle.std.specs.List.{filter_map};
ghost use Rattle.call_cycles.specs.Mirrors.Numbering.{body_in, inst_end, block_ends, looked_up as looked_up_in, in_items, body_row, rows_of, starts_of, ends_of};

use crate::functions::{body_of, leads_of};
use crate::graph::Graph;
use ir_syntax::{Block, Inst, Item, Program};
use ir_types::{List, OutOfMemory};
use std::alloc::Global;

/// The number of the function for which the item at a place stands.
fn looked_up(leads: &[Option<usize>], place: usize) -> Option<usize>
    ensures { result ≡ looked_up_in leads.now place }
{
    match leads.get(place) {
        Some(lead) => *lead,
        None => None,
    }
}

/// The number of the function that an instruction calls by name.
fn end_of(leads: &[Option<usize>], inst: &Inst) -> Option<usize>
    ensures { result ≡ inst_end leads.now inst.now }
{
    match inst.written_callee() {
        Some(place) => looked_up(leads, place),
        None => None,
    }
}

/// Adds the numbers of the functions that instructions call.
fn add_insts(
    ends: &mut List<usize>,
    leads: &[Option<usize>],
    insts: &[Inst],
) -> Result<(), OutOfMemory>
    ensures { OnOk result (ends.new ≡ ends.old ++ filter_map (inst_end leads.now) insts.now) }
{
    for inst in insts {
        match end_of(leads, inst) {
            Some(end) => ends.push(end)?,
            None => {}
        }
    }
    Ok(())
}

/// Adds those of blocks.
fn add_blocks(
    ends: &mut List<usize>,
    leads: &[Option<usize>],
    blocks: &[Block],
) -> Result<(), OutOfMemory>
    ensures { OnOk result (ends.new ≡ ends.old ++ block_ends leads.now blocks.now) }
{
    for block in blocks {
        add_insts(ends, leads, block.insts.as_slice())?;
    }
    Ok(())
}

/// Adds the functions among the items of a module.
fn add_items(
    starts: &mut List<usize>,
    ends: &mut List<usize>,
    leads: &[Option<usize>],
    items: &[Item],
) -> Result<(), OutOfMemory>
    ensures starts { OnOk result (starts.new ≡ starts.old ++ starts_of (length ends.old) (in_items (body_row leads.now) 0 items.now)) }
    ensures ends { OnOk result (ends.new ≡ ends.old ++ ends_of (in_items (body_row leads.now) 0 items.now)) }
{
    for item in items {
        match body_of(item) {
            Some(body) => {
                starts.push(ends.len())?;
                add_blocks(ends, leads, body.blocks.as_slice())?;
            }
            None => {}
        }
    }
    Ok(())
}

/// The graph whose nodes are the functions with bodies, by their numbers. An edge leads from a function to each that it calls by name.
pub(crate) fn graph_of(
    alloc: Global,
    program: &Program,
    numbers: &List<List<Option<usize>>>,
) -> Result<Graph, OutOfMemory>
    ensures ends { IfOk result (λ graph. graph.ends ≡ ends_of (rows_of program.now.targets numbers.now 0 program.now.modules)) }
    ensures starts { IfOk result (λ graph. graph.starts ≡ starts_of 0 (rows_of program.now.targets numbers.now 0 program.now.modules) ++ length graph.ends ∷ []) }
{
    let mut starts = List::new(alloc);
    let mut ends = List::new(alloc);
    for (module, m) in program.modules().iter().enumerate() {
        let items = m.items.as_slice();
        let leads = leads_of(alloc, program, numbers, module, items)?;
        add_items(&mut starts, &mut ends, leads.as_slice(), items)?;
    }
    starts.push(ends.len())?;
    Ok(Graph { starts, ends })
}

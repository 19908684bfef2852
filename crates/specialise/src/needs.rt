//! The rows that bodies and initialisers need.
ghost use Rattle.std.specs.Prelude.{◌≡◌, ◌++◌, All, IfOk, IfSome, OnOk, map, option_to_list};
ghost use Rattle.std.specs.List.{filter_map};
ghost use Rattle.demands.specs.Order.{symbol_of};
ghost use Rattle.demands.specs.Rows.{IsShortSymbol, words_of};
ghost use Rattle.interface.specs.Asked.{named as named_in};
ghost use Rattle.interface.specs.Names.{HasFewArgs};
ghost use Rattle.specialise.specs.Needs.{inst_asks, block_asks, body_asks, init_asks, AreInOrder, AreRowsOf};

use demand_core::Row;
use demands::{Demand, row_of};
use interface::{call_of, called, known_of_args, named, names_of_block};
use ir_syntax::{Block, Const, Inst, Program};
use ir_types::{List, OutOfMemory};
use std::alloc::Global;

/// Adds the row of a demand, if there is one.
fn add_row(rows: &mut Vec<Row>, asked: Option<Demand>) -> Result<(), OutOfMemory>
    requires { IfSome asked (λ d. IsShortSymbol (symbol_of d)) }
    ensures { OnOk result (rows.new.items ≡ rows.old.items ++ map words_of (option_to_list asked)) }
{
    match asked {
        Some(demand) => rows.push(row_of(&demand))?,
        None => {}
    }
    Ok(())
}

/// Adds the rows of what the items at these places of a module are asked for with by their names.
fn add_named(
    alloc: Global,
    rows: &mut Vec<Row>,
    p: &Program,
    home: usize,
    places: &[usize],
) -> Result<(), OutOfMemory>
    ensures { OnOk result (rows.new.items ≡ rows.old.items ++ map words_of (filter_map (named_in p.now home) places.now)) }
{
    for place in places {
        add_row(rows, named(alloc, p, home, *place)?)?;
    }
    Ok(())
}

/// Adds the row of what an instruction of a residual body calls.
fn add_called(
    alloc: Global,
    rows: &mut Vec<Row>,
    p: &Program,
    cycles: &List<List<bool>>,
    home: usize,
    inst: &Inst,
) -> Result<(), OutOfMemory>
    requires { HasFewArgs inst.now }
    ensures { OnOk result (rows.new.items ≡ rows.old.items ++ map words_of (option_to_list (inst_asks p.now cycles.now home inst.now))) }
{
    match call_of(inst) {
        Some((place, args)) => {
            let known = known_of_args(&[], &[], args);
            let asked = called(alloc, p, cycles, home, place, &known[..args.len()])?;
            add_row(rows, asked)
        }
        None => Ok(()),
    }
}

fn add_calls(
    alloc: Global,
    rows: &mut Vec<Row>,
    p: &Program,
    cycles: &List<List<bool>>,
    home: usize,
    insts: &[Inst],
) -> Result<(), OutOfMemory>
    requires { All HasFewArgs insts.now }
    ensures { OnOk result (rows.new.items ≡ rows.old.items ++ map words_of (filter_map (inst_asks p.now cycles.now home) insts.now)) }
{
    for inst in insts {
        add_called(alloc, rows, p, cycles, home, inst)?;
    }
    Ok(())
}

fn add_block(
    alloc: Global,
    rows: &mut Vec<Row>,
    p: &Program,
    cycles: &List<List<bool>>,
    home: usize,
    block: &Block,
) -> Result<(), OutOfMemory>
    requires { All HasFewArgs block.now.insts }
    ensures { OnOk result (rows.new.items ≡ rows.old.items ++ map words_of (block_asks p.now cycles.now home block.now)) }
{
    add_calls(alloc, rows, p, cycles, home, block.insts.as_slice())?;
    let places = names_of_block(List::new(alloc), block)?;
    add_named(alloc, rows, p, home, places.as_slice())
}

/// The rows in row order, each once.
fn in_order(mut rows: Vec<Row>) -> Result<List<Row>, OutOfMemory>
    ensures { IfOk result (AreInOrder rows.items) }
{
    rows.sort_unstable();
    rows.dedup();
    Ok(List::from_vec(rows))
}

/// The rows that the blocks of a residual body need, in row order and each once. The body is one of the module `home`.
pub(crate) fn body_needs(
    alloc: Global,
    p: &Program,
    cycles: &List<List<bool>>,
    home: usize,
    blocks: &[Block],
) -> Result<List<Row>, OutOfMemory>
    requires { All (λ block. All HasFewArgs block.insts) blocks.now }
    ensures { IfOk result (AreRowsOf (body_asks p.now cycles.now home blocks.now)) }
{
    let mut rows = Vec::new(alloc);
    for block in blocks {
        add_block(alloc, &mut rows, p, cycles, home, block)?;
    }
    in_order(rows)
}

/// The rows that an initialiser in the module `home` needs, in row order and each once.
pub(crate) fn init_needs(
    alloc: Global,
    p: &Program,
    home: usize,
    init: &Option<Const>,
) -> Result<List<Row>, OutOfMemory>
    ensures { IfOk result (AreRowsOf (init_asks p.now home init.now)) }
{
    let mut rows = Vec::new(alloc);
    match init {
        Some(constant) => {
            let places = constant.add_names(List::new(alloc))?;
            add_named(alloc, &mut rows, p, home, places.as_slice())?;
        }
        None => {}
    }
    in_order(rows)
}

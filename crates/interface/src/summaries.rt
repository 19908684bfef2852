//! What a function calls and names in its reached blocks.
ghost use Rattle.std.specs.Prelude.{◌≡◌, ◌++◌, All, IfOk, OnOk, length};
ghost use Rattle.std.specs.List.{filter_map};
ghost use Rattle.ir_syntax.specs.Symbols.{item_at};
ghost use Rattle.ir_syntax.specs.Programs.{IsProgram};
ghost use Rattle.interface.specs.Names.{HasFewArgs};
ghost use Rattle.interface.specs.Summaries.{IsFoldedWith, blocks_at as blocks_in, canonical_of as stands_as, call_out, calls_out, named_out, known_of as known_by};

use crate::Outgoing;
use crate::arguments::{facts_of, known_of_args};
use crate::asked::item_of;
use crate::names::{call_of, names_of_block};
use demands::Pattern;
use fold_facts::{Assignment, Fact};
use ir_syntax::{Block, Inst, Item, Program, Sym};
use ir_types::{Known, List, OutOfMemory};
use std::alloc::Global;

/// The blocks of the function that a symbol names. Nothing else has any.
fn blocks_at(p: &Program, symbol: Sym) -> &[Block]
    ensures blocks { result.now ≡ blocks_in (item_at p.now.modules symbol) }
    ensures program { IsProgram p.now }
{
    match item_of(p, symbol) {
        Some(Item::Func(func)) => match &func.body {
            Some(body) => body.blocks.as_slice(),
            None => &[],
        },
        Some(Item::Var(_)) => &[],
        None => &[],
    }
}

/// The canonical symbol of the item at a place of a module. `None` comes where there is no item.
fn canonical_of(p: &Program, home: usize, place: usize) -> Option<Sym>
    ensures { result ≡ stands_as p.now home place }
{
    let symbol = Sym {
        module: home,
        item: place,
    };
    match item_of(p, symbol) {
        Some(_) => Some(p.canonical(symbol)),
        None => None,
    }
}

/// The call of an instruction, by its canonical symbol, with what is known of each argument.
fn out_of(
    alloc: Global,
    p: &Program,
    home: usize,
    known: &[Known],
    facts: &[Fact],
    inst: &Inst,
) -> Result<Option<(Sym, Pattern)>, OutOfMemory>
    requires { HasFewArgs inst.now }
    ensures { IfOk result (λ call. call ≡ call_out p.now home (known_by (record { known = known.now }) facts.now) inst.now) }
{
    let (place, args) = match call_of(inst) {
        Some(call) => call,
        None => return Ok(None),
    };
    let symbol = match canonical_of(p, home, place) {
        Some(symbol) => symbol,
        None => return Ok(None),
    };
    let items = known_of_args(known, facts, args);
    let pattern = Pattern::new(alloc, &items[..args.len()])?;
    Ok(Some((symbol, pattern)))
}

fn add_calls(
    alloc: Global,
    calls: &mut List<(Sym, Pattern)>,
    p: &Program,
    home: usize,
    known: &[Known],
    facts: &[Fact],
    insts: &[Inst],
) -> Result<(), OutOfMemory>
    requires { All HasFewArgs insts.now }
    ensures { OnOk result (calls.new ≡ calls.old ++ filter_map (call_out p.now home (known_by (record { known = known.now }) facts.now)) insts.now) }
{
    for inst in insts {
        match out_of(alloc, p, home, known, facts, inst)? {
            Some(call) => calls.push(call)?,
            None => {}
        }
    }
    Ok(())
}

/// Adds the canonical symbols of items of a module.
fn add_symbols(
    symbols: &mut List<Sym>,
    p: &Program,
    home: usize,
    places: &[usize],
) -> Result<(), OutOfMemory>
    ensures { OnOk result (symbols.new ≡ symbols.old ++ filter_map (stands_as p.now home) places.now) }
{
    for place in places {
        match canonical_of(p, home, *place) {
            Some(symbol) => symbols.push(symbol)?,
            None => {}
        }
    }
    Ok(())
}

fn calls_of(
    alloc: Global,
    p: &Program,
    home: usize,
    known: &[Known],
    a: &Assignment,
    facts: &[Fact],
    blocks: &[Block],
) -> Result<List<(Sym, Pattern)>, OutOfMemory>
    requires facts { facts.now ≡ a.now.facts }
    requires edges { length a.now.edges ≡ length blocks.now }
    requires few { All (λ block. All HasFewArgs block.insts) blocks.now }
    ensures { IfOk result (λ calls. calls ≡ calls_out p.now home known.now a.now blocks.now) }
{
    let mut calls = List::new(alloc);
    for (place, block) in blocks.iter().enumerate() {
        if a.is_reached(place) {
            add_calls(
                alloc,
                &mut calls,
                p,
                home,
                known,
                facts,
                block.insts.as_slice(),
            )?;
        }
    }
    Ok(calls)
}

fn others_of(
    alloc: Global,
    p: &Program,
    home: usize,
    a: &Assignment,
    blocks: &[Block],
) -> Result<List<Sym>, OutOfMemory>
    requires edges { length a.now.edges ≡ length blocks.now }
    ensures { IfOk result (λ symbols. symbols ≡ named_out p.now home a.now blocks.now) }
{
    let mut symbols = List::new(alloc);
    for (place, block) in blocks.iter().enumerate() {
        if a.is_reached(place) {
            let places = names_of_block(List::new(alloc), block)?;
            add_symbols(&mut symbols, p, home, places.as_slice())?;
        }
    }
    Ok(symbols)
}

/// What a function calls and names in its reached blocks, by canonical symbols, in the order of the text and with repeats:
/// each call whose callee is written as a name, with what is known of each argument, and every other naming of a symbol,
/// also in phi entries of edges that aren't reached and in instructions whose value is known.
///
/// The symbol is to name a function with a body. `known` has one item for each parameter, unknown or a value of its type, and
/// `facts` is an assignment of the function. `OutOfMemory` says that the allocator refused memory.
pub fn summary(
    alloc: Global,
    p: &Program,
    func: Sym,
    known: &[Known],
    facts: &Assignment,
) -> Result<Outgoing, OutOfMemory>
    requires folded { IsFoldedWith known.now facts.now (item_at p.now.modules func) }
    ensures calls { IfOk result (λ out. out.calls ≡ calls_out p.now func.module known.now facts.now (blocks_in (item_at p.now.modules func))) }
    ensures named { IfOk result (λ out. out.named ≡ named_out p.now func.module facts.now (blocks_in (item_at p.now.modules func))) }
{
    let blocks = blocks_at(p, func);
    let values = facts_of(alloc, facts, blocks)?;
    let calls = calls_of(
        alloc,
        p,
        func.module,
        known,
        facts,
        values.as_slice(),
        blocks,
    )?;
    let named = others_of(alloc, p, func.module, facts, blocks)?;
    Ok(Outgoing { calls, named })
}

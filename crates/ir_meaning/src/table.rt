//! The numbers of the first results of blocks.
ghost use Rattle.std.specs.Prelude.{◌≡◌, ◌+◌, ◌++◌, ◌∷◌, [], IfOk, IfSome, IsSome, Some, length, map};
ghost use Rattle.ir_syntax.specs.Results.{block_results};
ghost use Rattle.ir_meaning.specs.Mirrors.Numbering as numbering;

use ir_syntax::{Block, Item, Module, Sym};
use ir_types::OutOfMemory;
use sqlite_items::Items as List;
use std::alloc::Global;

/// For each block of each body, by module and item, the number of its first result, and behind the last block how many
/// results the body has.
pub type Table = List<List<List<usize>>>;

/// The number behind the results of a block, where it is below 2^64.
fn number_behind(block: &Block, first: usize) -> Option<usize>
    ensures { IfSome result (λ behind. behind ≡ first + length (block_results block.now)) }
{
    let mut behind = first.checked_add(block.phis.len())?;
    for inst in block.insts.as_slice() {
        if inst.has_result() {
            behind = behind.checked_add(1)?;
        }
    }
    Some(behind)
}

/// The numbers of the first results of the blocks of a body. Slots of 2^64 results are more than there is memory for.
fn numbers_of(alloc: Global, blocks: &[Block]) -> Result<List<usize>, OutOfMemory>
    ensures { IfOk result (λ numbers. numbers ≡ numbering.numbers_from 0 blocks.now) }
{
    let mut numbers = List::new(alloc);
    let mut first = 0;
    for block in blocks {
        numbers.push(first)?;
        first = match number_behind(block, first) {
            Some(behind) => behind,
            None => return Err(OutOfMemory),
        };
    }
    numbers.push(first)?;
    Ok(numbers)
}

fn item_numbers(alloc: Global, item: &Item) -> Result<List<usize>, OutOfMemory>
    ensures { IfOk result (λ numbers. numbers ≡ numbering.item_numbers item.now) }
{
    match item {
        Item::Var(_) => Ok(List::new(alloc)),
        Item::Func(func) => match &func.body {
            Some(body) => numbers_of(alloc, body.blocks.as_slice()),
            None => Ok(List::new(alloc)),
        },
    }
}

fn module_numbers(alloc: Global, items: &[Item]) -> Result<List<List<usize>>, OutOfMemory>
    ensures { IfOk result (λ row. row ≡ map numbering.item_numbers items.now) }
{
    let mut row = List::new(alloc);
    for item in items {
        row.push(item_numbers(alloc, item)?)?;
    }
    Ok(row)
}

/// The table of a program's modules.
pub fn table_of(alloc: Global, modules: &[Module]) -> Result<Table, OutOfMemory>
    ensures { IfOk result (λ table. table ≡ numbering.table_of modules.now) }
{
    let mut table = List::new(alloc);
    for module in modules {
        table.push(module_numbers(alloc, module.items.as_slice())?)?;
    }
    Ok(table)
}

/// The number at a block of an item.
pub fn number_at(table: &[List<List<usize>>], sym: Sym, block: usize) -> usize
    requires { IsSome (numbering.number_at table.now sym block) }
    ensures { numbering.number_at table.now sym block ≡ Some result }
{
    table[sym.module].as_slice()[sym.item].as_slice()[block]
}

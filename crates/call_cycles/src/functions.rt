//! The numbers of the functions that have bodies.
ghost use Rattle.std.specs.Prelude.{◌≡◌, ℕ, ◌+◌, ◌<◌, ◌≤◌, ◌^◌, All, length, option_copied, IfOk, OnOk, IsSome};
ghost use Rattle.ir_syntax.specs.Symbols.{item_at};
ghost use Rattle.ir_syntax.specs.Targets.{entry_at};
ghost use Rattle.call_cycles.specs.Mirrors.Numbering.{body_in, item_numbers, next_number, module_numbers, number_of as number_in, leads_from, lead};

use ir_syntax::{Body, Item, Module, Program, Sym, Target};
use ir_types::{List, OutOfMemory};
use std::alloc::Global;

/// The body of a function that has one.
pub(crate) fn body_of(item: &Item) -> Option<&Body>
    ensures { option_copied result ≡ body_in item.now }
{
    match item {
        Item::Var(_) => None,
        Item::Func(func) => match &func.body {
            Some(body) => Some(body),
            None => None,
        },
    }
}

/// For each item its number, where it is a function with a body. The next function has the number `next`.
fn number_items(
    alloc: Global,
    next: &mut usize,
    items: &[Item],
) -> Result<List<Option<usize>>, OutOfMemory>
    requires { next.old + length items.now < 2 ^ 64 }
    ensures numbers { IfOk result (λ numbers. numbers ≡ item_numbers next.old items.now) }
    ensures next { OnOk result (next.new ≡ next_number next.old items.now) }
    ensures most { OnOk result (next.new ≤ next.old + length items.now) }
{
    let mut numbers = List::new(alloc);
    for item in items {
        match body_of(item) {
            Some(_) => {
                numbers.push(Some(*next))?;
                *next += 1;
            }
            None => numbers.push(None)?,
        }
    }
    Ok(numbers)
}

/// For each item of each module its number, where it is a function with a body: they are counted over all modules.
pub(crate) fn number_modules(
    alloc: Global,
    modules: &[Module],
) -> Result<List<List<Option<usize>>>, OutOfMemory>
    requires few { length modules.now < 2 ^ 31 }
    requires few_items { All (λ m. length m.items < 2 ^ 32) modules.now }
    ensures { IfOk result (λ numbers. numbers ≡ module_numbers 0 modules.now) }
{
    let mut numbers = List::new(alloc);
    let mut next = 0;
    for module in modules {
        numbers.push(number_items(alloc, &mut next, module.items.as_slice())?)?;
    }
    Ok(numbers)
}

/// The number of the function at a symbol, if it has one.
fn number_of(numbers: &List<List<Option<usize>>>, symbol: Sym) -> Option<usize>
    ensures { result ≡ number_in numbers.now symbol }
{
    match numbers.get(symbol.module) {
        Some(row) => match row.get(symbol.item) {
            Some(number) => *number,
            None => None,
        },
        None => None,
    }
}

/// The number of the function for which an item stands, if it stands for one.
fn lead_of(program: &Program, numbers: &List<List<Option<usize>>>, symbol: Sym) -> Option<usize>
    requires { IsSome (item_at program.now.modules symbol) }
    ensures { result ≡ lead numbers.now (entry_at program.now.targets symbol) }
{
    match program.target(symbol) {
        Target::Def(definition) => number_of(numbers, *definition),
        Target::Outside => None,
        Target::Builtin(_) => None,
        Target::Intrinsic(_) => None,
        Target::Nothing => None,
    }
}

/// For each item of a module the number of the function for which it stands.
pub(crate) fn leads_of(
    alloc: Global,
    program: &Program,
    numbers: &List<List<Option<usize>>>,
    home: usize,
    items: &[Item],
) -> Result<List<Option<usize>>, OutOfMemory>
    requires { (item : ℕ) → item < length items.now → IsSome (item_at program.now.modules (record { «module» = home; item = item })) }
    ensures { IfOk result (λ leads. leads ≡ leads_from program.now.targets numbers.now home 0 items.now) }
{
    let mut leads = List::new(alloc);
    for (item, _found) in items.iter().enumerate() {
        leads.push(lead_of(program, numbers, Sym { module: home, item }))?;
    }
    Ok(leads)
}

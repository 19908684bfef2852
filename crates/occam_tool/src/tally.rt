//! The counts of a checked program.
ghost use Rattle.std.specs.Prelude.{◌≡◌, ◌<◌, ◌^◌, sum_by};
ghost use Rattle.occam_tool.specs.Counts.{function_count, variable_count, instruction_count, module_count, counts_of as counts_of_modules};

use crate::Checked;
use ir_syntax::{Item, Module};

fn is_function(item: &Item) -> u64
    ensures { result ≡ function_count item.now }
{
    match item {
        Item::Var(_) => 0,
        Item::Func(func) => u64::from(func.body.is_some()),
    }
}

fn is_variable(item: &Item) -> u64
    ensures { result ≡ variable_count item.now }
{
    match item {
        Item::Var(var) => u64::from(var.init.is_some()),
        Item::Func(_) => 0,
    }
}

fn instructions(item: &Item) -> u64
    requires { instruction_count item.now < 2 ^ 63 }
    ensures { result ≡ instruction_count item.now }
{
    match item {
        Item::Var(_) => 0,
        Item::Func(func) => match &func.body {
            Some(body) => body.count() as u64,
            None => 0,
        },
    }
}

fn functions_in(items: &[Item]) -> u64
    requires { sum_by function_count items.now < 2 ^ 63 }
    ensures { result ≡ sum_by function_count items.now }
{
    let mut count = 0u64;
    for item in items {
        count += is_function(item);
    }
    count
}

fn variables_in(items: &[Item]) -> u64
    requires { sum_by variable_count items.now < 2 ^ 63 }
    ensures { result ≡ sum_by variable_count items.now }
{
    let mut count = 0u64;
    for item in items {
        count += is_variable(item);
    }
    count
}

fn instructions_in(items: &[Item]) -> u64
    requires { sum_by instruction_count items.now < 2 ^ 63 }
    ensures { result ≡ sum_by instruction_count items.now }
{
    let mut count = 0u64;
    for item in items {
        count += instructions(item);
    }
    count
}

/// The modules, the definitions of functions and of variables, and the phis, instructions and terminators.
pub fn counts_of(modules: &[Module]) -> Checked
    requires functions { sum_by (module_count function_count) modules.now < 2 ^ 63 }
    requires variables { sum_by (module_count variable_count) modules.now < 2 ^ 63 }
    requires instructions { sum_by (module_count instruction_count) modules.now < 2 ^ 63 }
    ensures { result ≡ counts_of_modules modules.now }
{
    let mut counts = Checked {
        modules: modules.len() as u64,
        functions: 0,
        globals: 0,
        instructions: 0,
    };
    for module in modules {
        let items = module.items.as_slice();
        counts.functions += functions_in(items);
        counts.globals += variables_in(items);
        counts.instructions += instructions_in(items);
    }
    counts
}

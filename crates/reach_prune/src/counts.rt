//! The counts of a report.
ghost use Rattle.std.specs.Prelude.{◌≡◌, ◌-◌, ◌^◌, All, min, map, sum};
ghost use Rattle.demands.specs.Order.{symbol_of};
ghost use Rattle.demands.specs.Rows.{IsShortSymbol};
ghost use Rattle.winnowed_form.specs.Winnowed.{is_variable, is_sort as of_sort, sort_count as count_of_sort, item_count as count_in_item, module_count as count_in_module};
ghost use Rattle.reach_prune.specs.Mirrors.Shown.{shown};

use crate::copies::is_copy;
use crate::grounds::Grounds;
use demands::Demand;
use ir_syntax::{Item, Module};
use winnowed_form::{Member, Sort};

fn is_variable(d: &Demand) -> bool
    ensures { result ≡ is_variable d.now }
{
    match d {
        Demand::Var { .. } => true,
        Demand::Func { .. } => false,
    }
}

fn is_sort(g: &Grounds<'_>, sort: Sort, d: &Demand) -> bool
    requires short { IsShortSymbol (symbol_of d.now) }
    ensures { result ≡ of_sort (shown g.now) sort d.now }
{
    match sort {
        Sort::Original => !is_variable(d) && !is_copy(g, d),
        Sort::Clone => is_copy(g, d),
        Sort::Variable => is_variable(d),
    }
}

/// How many members are written so.
pub(crate) fn sort_count(g: &Grounds<'_>, sort: Sort, members: &[Member]) -> u64
    requires short { All (λ member. IsShortSymbol (symbol_of member.demand)) members.now }
    ensures { result ≡ count_of_sort (shown g.now) sort members.now }
{
    let mut count = 0;
    for member in members {
        if is_sort(g, sort, &member.demand) {
            count += 1;
        }
    }
    count
}

fn item_count(item: &Item) -> u64
    ensures { result ≡ min (count_in_item item.now) (2 ^ 64 - 1) }
{
    match item {
        Item::Var(_) => 0,
        Item::Func(func) => match &func.body {
            Some(body) => body.count() as u64,
            None => 0,
        },
    }
}

fn module_count(module: &Module) -> u64
    ensures { result ≡ min (count_in_module module.now) (2 ^ 64 - 1) }
{
    let mut count = 0u64;
    for item in module.items.as_slice() {
        count = count.saturating_add(item_count(item));
    }
    count
}

/// How many phis, instructions and terminators modules have, or 2^64 - 1 where there are more.
pub(crate) fn instruction_count(modules: &[Module]) -> u64
    ensures { result ≡ min (sum (map count_in_module modules.now)) (2 ^ 64 - 1) }
{
    let mut count = 0u64;
    for module in modules {
        count = count.saturating_add(module_count(module));
    }
    count
}

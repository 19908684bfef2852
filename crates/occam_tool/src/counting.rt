//! Counts of a module for its report.
ghost use Rattle.std.specs.Prelude.{◌≡◌, ◌<◌, ◌≤◌, ◌^◌, sum_by};
ghost use Rattle.straight_form.specs.Counts.{item_count};

use ir_syntax::Item;

/// The instructions and terminators of an item.
fn count_item(item: &Item) -> u64
    requires { item_count item.now < 2 ^ 63 }
    ensures { result ≡ item_count item.now }
{
    match item {
        Item::Var(_) => 0,
        Item::Func(func) => match &func.body {
            Some(body) => body.count() as u64,
            None => 0,
        },
    }
}

/// The instructions and terminators of all items.
pub fn count_instructions(items: &[Item]) -> u64
    requires { sum_by item_count items.now < 2 ^ 63 }
    ensures { result ≡ sum_by item_count items.now }
{
    let mut count = 0u64;
    for item in items {
        count += count_item(item);
    }
    count
}

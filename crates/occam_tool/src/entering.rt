//! The place of the entry.
ghost use Rattle.std.specs.Prelude.{◌≡◌, map};
ghost use Rattle.ir_syntax.specs.FormedBody.{item_name};
ghost use Rattle.name_table.specs.Places.{place_among};

use ir_syntax::Item;

/// The place of the first item of this name.
pub fn place_of_entry(items: &[Item], entry: &[u8]) -> Option<usize>
    ensures { result ≡ place_among entry.now (map item_name items.now) }
{
    for (place, item) in items.iter().enumerate() {
        if entry == name_of(item) {
            return Some(place);
        }
    }
    None
}

fn name_of(item: &Item) -> &[u8]
    ensures { result.now ≡ item_name item.now }
{
    match item {
        Item::Var(var) => var.name.as_slice(),
        Item::Func(func) => func.name.as_slice(),
    }
}

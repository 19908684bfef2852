//! The order of demands.
ghost use Rattle.std.specs.Prelude.{◌≡◌, Some, refl};
ghost use Rattle.std.specs.Ordering.{eq_by_cmp};
ghost use Rattle.std.specs.Cmp.{partial_equiv_from_equiv, partial_order_from_total};
ghost use Rattle.demands.specs.Order.{known_order, pattern_order, symbol_order, demand_order};
ghost use Rattle.demands.specs.TotalOrder.{pattern_equiv, demand_total, demand_equiv};

use crate::{Demand, Pattern};
use ir_syntax::Sym;
use ir_types::Known;
use std::cmp::Ordering;

fn known_cmp(a: &Known, b: &Known) -> Ordering
    ensures { result ≡ known_order a.now b.now }
{
    match (a, b) {
        (Known::Unknown, Known::Unknown) | (Known::Null, Known::Null) => Ordering::Equal,
        (Known::Unknown, _) | (_, Known::Null) => Ordering::Less,
        (Known::Null, _) | (_, Known::Unknown) => Ordering::Greater,
        (Known::Num(one), Known::Num(other)) => one.cmp(other),
    }
}

fn items_cmp(a: &[Known], b: &[Known]) -> Ordering
    ensures { result ≡ pattern_order a.now b.now }
{
    for (k, item) in a.iter().enumerate() {
        if k >= b.len() {
            return Ordering::Greater;
        }
        let order = known_cmp(item, &b[k]);
        if order.is_ne() {
            return order;
        }
    }
    a.len().cmp(&b.len())
}

fn symbol_cmp(a: Sym, b: Sym) -> Ordering
    ensures { result ≡ symbol_order a b }
{
    a.module.cmp(&b.module).then(a.item.cmp(&b.item))
}

/// The order of demands: variables before functions, then by module, by item, and by the items of the pattern from the
/// first. Unknown comes before numbers and numbers before null, and a pattern before those that it begins. Takes no memory.
pub fn demand_cmp(a: &Demand, b: &Demand) -> Ordering
    ensures { result ≡ demand_order a.now b.now }
{
    match (a, b) {
        (Demand::Var { var: one }, Demand::Var { var: other }) => symbol_cmp(*one, *other),
        (Demand::Var { .. }, Demand::Func { .. }) => Ordering::Less,
        (Demand::Func { .. }, Demand::Var { .. }) => Ordering::Greater,
        (
            Demand::Func {
                func: one,
                pattern: first,
            },
            Demand::Func {
                func: other,
                pattern: second,
            },
        ) => symbol_cmp(*one, *other).then(items_cmp(first.items(), second.items())),
    }
}

impl PartialEq for Pattern {
    ghost eq = { eq_by_cmp pattern_order };

    ghost laws = { partial_equiv_from_equiv pattern_equiv };

    fn eq(&self, other: &Pattern) -> bool {
        items_cmp(self.items(), other.items()).is_eq()
    }
}

impl Eq for Pattern {
    ghost laws = { pattern_equiv };
}

impl PartialEq for Demand {
    ghost eq = { eq_by_cmp demand_order };

    ghost laws = { partial_equiv_from_equiv demand_equiv };

    fn eq(&self, other: &Demand) -> bool {
        demand_cmp(self, other).is_eq()
    }
}

impl Eq for Demand {
    ghost laws = { demand_equiv };
}

impl PartialOrd for Demand {
    ghost partial_cmp = { λ a b. Some (demand_order a b) };

    ghost laws = { partial_order_from_total demand_total };

    fn partial_cmp(&self, other: &Demand) -> Option<Ordering> {
        Some(self.cmp(other))
    }
}

impl Ord for Demand {
    ghost cmp = { λ a b. demand_order a b };

    ghost total = { demand_total };

    ghost matches_partial_cmp = { λ a b. refl };

    ghost matches_eq = { λ a b. refl };

    fn cmp(&self, other: &Demand) -> Ordering {
        demand_cmp(self, other)
    }
}

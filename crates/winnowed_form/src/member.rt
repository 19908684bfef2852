//! Members of a set of demands.
ghost use Rattle.std.specs.Prelude.{Some, refl};
ghost use Rattle.std.specs.Cmp.{partial_equiv_from_equiv, partial_order_from_total};
ghost use Rattle.std.specs.Ordering.{eq_by_cmp};
ghost use Rattle.winnowed_form.specs.Ordered.{member_order, member_total, member_equiv};

use demands::{Demand, demand_cmp};
use ir_syntax::Body;
use std::cmp::Ordering;

/// A demand with what is left of its function; a variable has no body. Members are ordered by their demands.
#[derive(Debug, Drop)]
pub struct Member {
    pub demand: Demand,
    pub body: Option<Body>,
}

impl PartialEq for Member {
    ghost eq = { eq_by_cmp member_order };

    ghost laws = { partial_equiv_from_equiv member_equiv };

    fn eq(&self, other: &Member) -> bool {
        demand_cmp(&self.demand, &other.demand).is_eq()
    }
}

impl Eq for Member {
    ghost laws = { member_equiv };
}

impl PartialOrd for Member {
    ghost partial_cmp = { λ a b. Some (member_order a b) };

    ghost laws = { partial_order_from_total member_total };

    fn partial_cmp(&self, other: &Member) -> Option<Ordering> {
        Some(self.cmp(other))
    }
}

impl Ord for Member {
    ghost cmp = { λ a b. member_order a b };

    ghost total = { member_total };

    ghost matches_partial_cmp = { λ a b. refl };

    ghost matches_eq = { λ a b. refl };

    fn cmp(&self, other: &Member) -> Ordering {
        demand_cmp(&self.demand, &other.demand)
    }
}

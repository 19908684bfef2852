//! The rule as the table keeps it, and what each kind of step tells.
ghost use Rattle.table_rule.specs.Rule.{Rule};
ghost use Rattle.table_rule.specs.Tells.{
  draws,
  stores,
  looks,
  reads,
  reads_head,
  reads_claim,
  publishes,
  claims_it,
  recalls,
};
ghost use Rattle.table_rule.specs.Views.{all_of, keeping, giving, both_of, spent};

use crate::view::View;
use atomic_table::{Join, Play, Seat, Split, Table, TableRule};
use std::alloc::Global;

/// The rule of the table.
pub struct Law;

impl TableRule<(), View, u64> for Law {
    ghost holds = { λ workers s. Rule workers s.words s.views };

    ghost first = { all_of };
}

pub(crate) struct Draws;

impl Play<(), View> for Draws {
    ghost then = { draws };
}

pub(crate) struct Stores;

impl Play<(), View> for Stores {
    ghost then = { stores };
}

pub(crate) struct Looks;

impl Play<(), View> for Looks {
    ghost then = { looks };
}

pub(crate) struct Reads;

impl Play<(), View> for Reads {
    ghost then = { reads };
}

pub(crate) struct ReadsHead;

impl Play<(), View> for ReadsHead {
    ghost then = { reads_head };
}

pub(crate) struct ReadsClaim;

impl Play<(), View> for ReadsClaim {
    ghost then = { reads_claim };
}

pub(crate) struct Publishes;

impl Play<(), View> for Publishes {
    ghost then = { publishes };
}

pub(crate) struct Takes;

impl Play<(), View> for Takes {
    ghost then = { claims_it };
}

pub(crate) struct Recalls;

impl Play<(), View> for Recalls {
    ghost then = { recalls };
}

pub(crate) struct Cuts;

impl Split<View> for Cuts {
    ghost left = { keeping };

    ghost right = { giving };
}

pub(crate) struct Meets;

impl Join<View> for Meets {
    ghost both = { both_of };

    ghost spent = { spent };
}

/// The words that all seats share.
pub type Board = Table<(), View, u64, Law, Global>;

/// What a worker steps with.
pub type Place = Seat<(), View>;

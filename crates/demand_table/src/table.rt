//! The table.
use std::marker::Model;
use table_rule::Board;

/// The shared table. Workers use it through their passes, without a lock.
#[derive(Drop)]
pub struct DemandTable {
    pub(crate) board: Board,
}

impl Model for DemandTable {
    ghost use Rattle.std.specs.Prelude.{◌≡◌, ◌≤◌};
    ghost use Rattle.table_rule.specs.Layout.{total};
    ghost use Rattle.demand_table.specs.Passes.{TableView};

    ghost Value = { TableView };

    ghost view = { λ t. record { id = t.board.shared.table_id; workers = t.board.shared.key } };

    ghost invariant = { λ t. (t.board.shared.table_id.words ≡ total t.board.shared.key) × (t.board.shared.key ≤ 64) × (t.board.shared.table_id.slots ≡ 0) };
}

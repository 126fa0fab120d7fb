ghost use Rattle.std.specs.Prelude.{◌≤◌};
ghost use Rattle.table.specs.Tables.{capacity_of};

use crate::node_key::NodeKey;
use table::Table;

mod ops;

/// Nodes that lie in a table, by their hash.
#[derive(Drop)]
pub struct HashedStore<'a> {
    table: Table<'a, NodeKey>,
    // the table has no more cells than a store may use
    pub ghost limited: { capacity_of table ≤ 1048576 },
}

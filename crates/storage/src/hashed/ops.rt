ghost use Rattle.std.specs.Prelude.{◌≡◌, ◌≤◌, [], length};
ghost use Rattle.storage.specs.HashedStores.{capacity_of, nodes_of};
ghost use Rattle.storage.specs.NodeKeys.{stored_keys};
ghost use Rattle.storage.specs.Stores.{capacity_for};
ghost use Rattle.table.specs.Tables.{keys_of};

use super::HashedStore;
use crate::limit::LIMIT;
use crate::node_key::NodeKey;
use crate::store::Store;
use model::{Fault, Node, Refusal};
use table::{Cell, Table};

impl<'a> HashedStore<'a> {
    /// A store of no nodes over the first cells, as many as it may use, whatever they held.
    pub fn new(cells: &'a mut [Cell<NodeKey>]) -> HashedStore<'a>
        ensures nodes { nodes_of result ≡ [] }
        ensures capacity { capacity_of result ≡ capacity_for (length cells.old) }
        ensures cells { length result.table.cells.now ≡ capacity_for (length cells.old) }
        ensures lent { length cells.old ≤ 1048576 → result.table.cells.ghost_name ≡ cells.entry.ghost_name }
    {
        HashedStore {
            table: Table::open(within_limit(cells)),
        }
    }
}

// The first cells, as many as a store may use.
fn within_limit<'a>(cells: &'a mut [Cell<NodeKey>]) -> &'a mut [Cell<NodeKey>]
    ensures long { length result.now ≡ capacity_for (length cells.old) }
    ensures lent { length cells.old ≤ 1048576 → result.ghost_name ≡ cells.entry.ghost_name }
{
    if cells.len() <= LIMIT {
        cells
    } else {
        &mut cells[..LIMIT]
    }
}

impl Store for HashedStore<'_> {
    ghost nodes = { nodes_of };

    ghost capacity = { capacity_of };

    ghost lent = { λ s. s.table.cells.ghost_name };

    ghost stored = { λ s. stored_keys (keys_of s.table) s.table.apart s.table.filled.few s.limited };

    fn clear(&mut self) {
        self.table.clear();
    }

    fn find_or_add(&mut self, node: Node) -> Result<usize, Fault> {
        self.table
            .find_or_add(NodeKey { node })
            .map_err(|_| Refusal::StoreFull.at(0))
    }

    fn cut(&mut self, count: usize) {
        self.table.cut(count);
    }

    fn capacity(&self) -> usize {
        self.table.capacity()
    }

    fn len(&self) -> usize {
        self.table.len()
    }

    fn node(&self, place: usize) -> Option<Node> {
        self.table.key_at(place).map(|key| key.node)
    }
}

ghost use Rattle.std.specs.Prelude.{◌≡◌, ◌<◌, ◌≤◌, [], length, slice_index_or, slice_set};
ghost use Rattle.model.specs.Roots.{blank_node};
ghost use Rattle.storage.specs.PlainStores.{capacity_of, nodes_of};
ghost use Rattle.storage.specs.Stores.{capacity_for, Finds};

use super::PlainStore;
use crate::limit::capacity_for;
use crate::store::Store;
use model::{Fault, Node, Refusal};

impl<'a> PlainStore<'a> {
    /// A store of no nodes over this memory, whatever it held.
    pub fn new(cells: &'a mut [Node]) -> PlainStore<'a>
        ensures nodes { nodes_of result ≡ [] }
        ensures capacity { capacity_of result ≡ capacity_for (length cells.old) }
        ensures cells { result.cells.now ≡ cells.old }
        ensures lent { result.cells.ghost_name ≡ cells.entry.ghost_name }
    {
        PlainStore { cells, len: 0 }
    }

    // The node in a cell. Cells are read and written by these two functions alone, so that another form of the
    // cells touches no other.
    fn read(&self, place: usize) -> Node
        requires { place < length self.now.cells.now }
        ensures { result ≡ slice_index_or self.now.cells.now place blank_node }
    {
        self.cells[place]
    }

    // Puts a node into a cell behind the nodes that are held.
    fn write(&mut self, place: usize, node: Node)
        requires behind { self.old.len ≤ place }
        requires inside { place < length self.old.cells.now }
        ensures cells { self.new.cells.now ≡ slice_set self.old.cells.now place node }
        ensures len { self.new.len ≡ self.old.len }
        ensures lent { self.new.cells.ghost_name ≡ self.old.cells.ghost_name }
    {
        self.cells[place] = node;
    }

    // The place of a node.
    fn find(&self, node: Node) -> Option<usize>
        ensures { Finds (nodes_of self.now) node result }
    {
        (0..self.len).find(|place| self.read(*place) == node)
    }
}

impl Store for PlainStore<'_> {
    ghost nodes = { nodes_of };

    ghost capacity = { capacity_of };

    ghost lent = { λ s. s.cells.ghost_name };

    ghost stored = { λ s. s.stored };

    fn clear(&mut self) {
        self.len = 0;
    }

    fn find_or_add(&mut self, node: Node) -> Result<usize, Fault> {
        if let Some(place) = self.find(node) {
            return Ok(place);
        }
        let place = self.len;
        if place == self.capacity() {
            return Err(Refusal::StoreFull.at(0));
        }
        self.write(place, node);
        self.len = place + 1;
        Ok(place)
    }

    fn cut(&mut self, count: usize) {
        self.len = self.len.min(count);
    }

    fn capacity(&self) -> usize {
        capacity_for(self.cells.len())
    }

    fn len(&self) -> usize {
        self.len
    }

    fn node(&self, place: usize) -> Option<Node> {
        // `then(|| self.read(place))` was tried: left open is that the node it answers is the one in the cell
        if place < self.len {
            Some(self.read(place))
        } else {
            None
        }
    }
}

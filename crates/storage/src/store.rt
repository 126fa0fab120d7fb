ghost use Rattle.std.specs.Prelude.{◌≡◌, ℕ, List, [], length, take};
ghost use Rattle.model.specs.declared.node.Node.{Node};
ghost use Rattle.std.specs.List.{slice_get};
ghost use Rattle.storage.specs.Stores.{FindsOrAdds, KeepsMemory, Stored};

use model::{Fault, Node};

/// A list of different nodes, numbered by place from 0.
pub trait Store {
    // the nodes that are held, by their numbers
    ghost nodes: { Self → List Node };

    // how many can be held
    ghost capacity: { Self → ℕ };

    // the memory that was lent
    ghost lent: { Self → ℕ };

    /// No node is left.
    fn clear(&mut self)
        ensures nodes { nodes self.new ≡ [] }
        ensures memory { KeepsMemory capacity lent self.old self.new };

    /// The place of the node, which is added if it is not there. A full store refuses a new node.
    fn find_or_add(&mut self, node: Node) -> Result<usize, Fault>
        ensures nodes { FindsOrAdds (capacity self.old) (nodes self.old) node result (nodes self.new) }
        ensures memory { KeepsMemory capacity lent self.old self.new };

    /// Keeps the first `count` nodes, or all if there are fewer.
    fn cut(&mut self, count: usize)
        ensures nodes { nodes self.new ≡ take count (nodes self.old) }
        ensures memory { KeepsMemory capacity lent self.old self.new };

    /// How many nodes can be held.
    fn capacity(&self) -> usize
        ensures { result ≡ capacity self.now };

    /// How many nodes are held.
    fn len(&self) -> usize
        ensures { result ≡ length (nodes self.now) };

    /// The node at a place.
    fn node(&self, place: usize) -> Option<Node>
        ensures { result ≡ slice_get (nodes self.now) place };

    // what every store owes
    ghost stored: { (s : Self) → Stored (capacity s) (nodes s) };
}

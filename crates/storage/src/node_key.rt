ghost use Rattle.storage.specs.NodeKeys.{key_hash, same_hash};

use crate::spread::spread;
use model::Node;
use table::Key;

/// A node as a key of a table. Equal keys are identical.
#[derive(Clone, Copy, Debug, PartialEq, Eq)]
pub struct NodeKey {
    pub(crate) node: Node,
}

impl Key for NodeKey {
    ghost code = { key_hash };

    ghost same_code = { same_hash };

    fn hash(&self) -> u32 {
        spread(self.node.fact, &self.node.low, &self.node.high)
    }
}

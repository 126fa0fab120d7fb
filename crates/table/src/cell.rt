ghost use Rattle.std.specs.Prelude.{◌≡◌, length, replicate};
ghost use Rattle.table.specs.Cells.{empty_cell};
ghost use Rattle.table.specs.Keys.{has_same};

use crate::key::Key;

/// A cell of a table's memory. The keys lie in the cells in the order in which they came; beside
/// them the cells hold the chains of keys whose hashes fall on one cell.
#[derive(Clone, Copy)]
pub struct Cell<K> {
    // the key with this cell's number
    pub(crate) key: Option<K>,
    // the latest key whose hash falls on this cell: here and in `next` a number and no `Box`, since the
    // cells lie in lent memory
    pub(crate) first: Option<usize>,
    // the latest key before this cell's key whose hash falls on the same cell
    pub(crate) next: Option<usize>,
}

impl<K: Copy> Cell<K> {
    pub fn empty() -> Cell<K>
        ensures { result ≡ empty_cell }
    {
        Cell {
            key: None,
            first: None,
            next: None,
        }
    }
}

impl<K: Key> Cell<K> {
    // Whether the cell holds a key that is equal to this one.
    pub(crate) fn holds(&self, key: &K) -> bool
        ensures { result ≡ has_same K.eq key.now self.now.key }
    {
        self.key.is_some_and(|held| held == *key)
    }
}

// Empties all the cells.
pub(crate) fn empty_all<K: Copy>(cells: &mut [Cell<K>])
    ensures { cells.new ≡ replicate (length cells.old) empty_cell }
{
    cells.fill(Cell::empty());
}

ghost use Rattle.std.specs.Prelude.{◌≡◌, ◌<◌, length};
ghost use Rattle.std.specs.List.{slice_get};
ghost use Rattle.table.specs.Filled.{home};
ghost use Rattle.table.specs.Keys.{Finds};
ghost use Rattle.table.specs.Tables.{capacity_of, keys_of};

use super::Table;
use crate::key::Key;

impl<K: Key> Table<'_, K> {
    /// How many keys are held.
    pub fn len(&self) -> usize
        ensures { result ≡ length (keys_of self.now) }
    {
        self.len
    }

    /// How many keys can be held.
    pub fn capacity(&self) -> usize
        ensures { result ≡ capacity_of self.now }
    {
        self.cells.len()
    }

    /// The key with a number.
    pub fn key_at(&self, number: usize) -> Option<K>
        ensures { result ≡ slice_get (keys_of self.now) number }
    {
        self.cells.get(number)?.key
    }

    /// The number of the key that is equal to this one.
    pub fn find(&self, key: &K) -> Option<usize>
        ensures { Finds K.eq (keys_of self.now) key.now result }
    {
        if self.cells.is_empty() {
            return None;
        }
        let cells = &*self.cells;
        // `successors(first, |number| cells[*number].next).find(..)` was tried: left open is that it ends, which
        // `find` asks for before its first step; here each number is below the one before, and that is the measure
        let mut at = cells[self.home(key)].first;
        while let Some(number) = at {
            let cell = &cells[number];
            if cell.holds(key) {
                return Some(number);
            }
            at = cell.next;
        }
        None
    }

    // The cell on which a key's hash falls.
    pub(super) fn home(&self, key: &K) -> usize
        requires { 0 < capacity_of self.now }
        ensures value { result ≡ home K.Key.code (capacity_of self.now) key.now }
        ensures within { result < capacity_of self.now }
    {
        key.hash() as usize % self.cells.len()
    }
}

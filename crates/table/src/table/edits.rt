ghost use Rattle.std.specs.Prelude.{◌≡◌, ◌-◌, ◌<◌, [], ◌∷◌, ◌++◌, length, take, replicate};
ghost use Rattle.table.specs.Cells.{empty_cell};
ghost use Rattle.table.specs.Keys.{Absent};
ghost use Rattle.table.specs.Runs.{TableLaws};
ghost use Rattle.table.specs.Tables.{capacity_of, keys_of, FindsOrAdds, KeepsCells};

use super::{Full, Table};
use crate::cell::{Cell, empty_all};
use crate::key::Key;

impl<'a, K: Key> Table<'a, K> {
    /// A table of no keys over these cells, whatever they held.
    pub fn open(cells: &'a mut [Cell<K>]) -> Table<'a, K>
        ensures keys { keys_of result ≡ [] }
        ensures cells { result.cells.now ≡ replicate (capacity_of result) empty_cell }
        ensures capacity { capacity_of result ≡ length cells.old }
        ensures lent { result.cells.ghost_name ≡ cells.entry.ghost_name }
        ensures laws { TableLaws K.eq K.Key.code (capacity_of result) }
    {
        empty_all(cells);
        Table { cells, len: 0 }
    }

    /// No key is left, and every cell is empty.
    pub fn clear(&mut self)
        ensures keys { keys_of self.new ≡ [] }
        ensures cells { self.new.cells.now ≡ replicate (capacity_of self.new) empty_cell }
        ensures memory { KeepsCells self.old self.new }
    {
        empty_all(self.cells);
        self.len = 0;
    }

    /// The number of the key that is equal to this one, which is added if there is none.
    pub fn find_or_add(&mut self, key: K) -> Result<usize, Full>
        ensures keys { FindsOrAdds K.eq (capacity_of self.old) (keys_of self.old) key result (keys_of self.new) }
        ensures memory { KeepsCells self.old self.new }
    {
        if let Some(number) = self.find(&key) {
            return Ok(number);
        }
        let number = self.len;
        if number == self.cells.len() {
            return Err(Full);
        }
        self.append(key);
        Ok(number)
    }

    // One key more, which no key that is held equals, at the front of its chain.
    fn append(&mut self, key: K)
        requires absent { Absent K.eq (keys_of self.old) key }
        requires room { self.old.len < capacity_of self.old }
        ensures keys { keys_of self.new ≡ keys_of self.old ++ (key ∷ []) }
        ensures memory { KeepsCells self.old self.new }
    {
        let number = self.len;
        let home = self.home(&key);
        let cells = &mut *self.cells;
        cells[number] = Cell {
            key: Some(key),
            next: cells[home].first,
            ..cells[number]
        };
        cells[home].first = Some(number);
        self.len = number + 1;
    }

    /// Keeps the first `count` keys, or all if there are fewer.
    pub fn cut(&mut self, count: usize)
        ensures keys { keys_of self.new ≡ take count (keys_of self.old) }
        ensures memory { KeepsCells self.old self.new }
    {
        // one key after the other, the last first: each is the front of its chain by then
        for _ in count..self.len {
            self.drop_last();
        }
    }

    // Takes the last key away, and makes its chain begin where it went on.
    fn drop_last(&mut self)
        requires some { 0 < self.old.len }
        ensures len { self.new.len ≡ self.old.len - 1 }
        ensures keys { keys_of self.new ≡ take (self.old.len - 1) (keys_of self.old) }
        ensures memory { KeepsCells self.old self.new }
    {
        let number = self.len - 1;
        let last = self.cells[number];
        let home = self.home(&last.key.unwrap());
        let cells = &mut *self.cells;
        cells[home].first = last.next;
        cells[number] = Cell {
            key: None,
            next: None,
            ..cells[number]
        };
        self.len = number;
    }
}

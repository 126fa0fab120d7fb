ghost use Rattle.std.specs.Prelude.{◌≡◌, codes, length, Some};
ghost use Rattle.table.specs.Cells.{keys_in};
ghost use Rattle.table.specs.Filled.{filled_prop, Filled};
ghost use Rattle.table.specs.Keys.{Apart};

use crate::cell::Cell;
use crate::key::Key;
use std::error::Error;
use std::fmt;

mod edits;
mod reads;

/// The table has no room for another key.
#[derive(Clone, Copy, Debug, PartialEq, Eq)]
pub struct Full;

// `thiserror` would write this one, but what it writes has no contract.
impl fmt::Display for Full {
    ghost output = { λ _. Some (codes "the table is full") };

    fn fmt<W: fmt::Write>(&self, f: &mut fmt::Formatter<W>) -> fmt::Result {
        f.write_str("the table is full")
    }
}

impl Error for Full {}

/// Keys with numbers, from 0 in the order in which they came, over lent cells.
#[derive(Drop)]
pub struct Table<'a, K: Key> {
    cells: &'a mut [Cell<K>],
    // a length beside the cells, since the memory is the caller's and every cell of it is there from the start
    len: usize,
    pub ghost count: { length (keys_in cells.now) ≡ len },
    // the cells are those of the keys
    pub ghost filled: { Filled K.Key.code cells.now } by { filled_prop K.code K.Key.code cells.now },
    // no two keys are equal
    pub ghost apart: { Apart K.eq (keys_in cells.now) },
}

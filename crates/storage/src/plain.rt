ghost use Rattle.std.specs.Prelude.{◌≡◌, length, take};
ghost use Rattle.storage.specs.Stores.{capacity_for, Stored};

use model::Node;

mod ops;

/// Nodes that lie one after the other in lent memory, and are searched one by one.
#[derive(Drop)]
pub struct PlainStore<'a> {
    cells: &'a mut [Node],
    // a length beside the cells, since the memory is the caller's and every cell of it is there from the start
    len: usize,
    pub ghost count: { length (take len cells.now) ≡ len },
    pub ghost stored: { Stored (capacity_for (length cells.now)) (take len cells.now) },
}

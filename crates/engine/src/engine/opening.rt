ghost use Rattle.std.specs.Prelude.{◌≡◌, [], take};
ghost use Rattle.engine.specs.Questions.{types_of};
ghost use Rattle.engine.specs.Runs.{Alike, Does};
ghost use Rattle.engine.specs.Runs.{cut as cut_call, cut_to};
ghost use Rattle.engine.specs.Staying.{Stays};
ghost use Rattle.storage.specs.Stores.{KeepsMemory};

use super::Engine;
use crate::diagrams::Diagrams;
use arithmetic::Arithmetic;
use arrayvec::ArrayVec;
use model::Order;
use storage::{Memo, Store};

impl<A: Arithmetic, S: Store, M: Memo> Engine<A, S, M> {
    /// An engine for the facts of an order, over a store and a memo, which are emptied whatever they held.
    pub fn open(order: Order, arithmetic: A, store: S, memo: M) -> Engine<A, S, M>
        ensures nodes { S.Store.nodes result.store ≡ [] }
        ensures answers { M.Memo.answers result.memo ≡ [] }
        ensures order { result.order ≡ order }
        ensures store { KeepsMemory S.Store.capacity S.Store.lent store result.store }
        ensures memo { M.Memo.lent result.memo ≡ M.Memo.lent memo }
        ensures alike { Alike A.Arithmetic.ring (types_of result.order) (S.Store.capacity result.store) }
    {
        let mut store = store;
        let mut memo = memo;
        store.clear();
        memo.forget();
        Engine {
            arithmetic,
            order,
            store,
            memo,
            frames: ArrayVec::new(),
        }
    }

    /// Keeps the first nodes, as many as `count`, and forgets every answer: what an answer speaks of may be gone.
    pub fn cut(&mut self, count: usize)
        ensures nodes { S.Store.nodes self.new.store ≡ take count (S.Store.nodes self.old.store) }
        ensures answers { M.Memo.answers self.new.memo ≡ [] }
        ensures does { Does A.Arithmetic.ring (types_of self.old.order) (S.Store.capacity self.old.store) (S.Store.nodes self.old.store) (cut_call count) (cut_to (S.Store.nodes self.new.store)) }
        ensures stays { Stays S.Store.capacity S.Store.lent M.Memo.lent self.old self.new }
    {
        self.store.cut(count);
        self.memo.forget();
    }

    /// The order of the facts.
    pub fn order(&self) -> &Order
        ensures { result.now ≡ self.now.order }
    {
        &self.order
    }

    /// The store, to be read.
    pub fn store(&self) -> &S
        ensures { result.now ≡ self.now.store }
    {
        &self.store
    }

    /// The diagrams that are held, to be read.
    pub fn diagrams(&self) -> Diagrams<'_, A, S>
        ensures order { result.order.now ≡ self.now.order }
        ensures store { result.store.now ≡ self.now.store }
    {
        Diagrams::new(&self.order, &self.store)
    }
}

ghost use Rattle.std.specs.Prelude.{◌≡◌, ◌<◌, [], length};
ghost use Rattle.model.specs.Orders.{facts_of};

use arithmetic::Arithmetic;
use engine::Engine;
use model::{Fault, Order, Root};
use storage::{Memo, Question, Store};

/// Holds an engine by value, as code above it does, and knows nothing of the store and the memo.
#[derive(Drop)]
pub struct Holder<A: Arithmetic, S: Store, M: Memo> {
    engine: Engine<A, S, M>,
}

impl<A: Arithmetic, S: Store, M: Memo> Holder<A, S, M> {
    pub fn open(order: Order, arithmetic: A, store: S, memo: M) -> Holder<A, S, M>
        ensures nodes { S.Store.nodes result.engine.store ≡ [] }
        ensures order { result.engine.order ≡ order }
        ensures lent { S.Store.lent result.engine.store ≡ S.Store.lent store }
    {
        Holder {
            engine: Engine::open(order, arithmetic, store, memo),
        }
    }

    /// Twice a fact, which the store is given two nodes for at most.
    pub fn twice(&mut self, fact: usize) -> Result<Root, Fault>
        requires known { fact < length (facts_of self.old.engine.order) }
        ensures lent { S.Store.lent self.new.engine.store ≡ S.Store.lent self.old.engine.store }
    {
        let root = self.engine.fact(fact)?;
        self.engine.answer(Question::Sum(root, root))
    }

    /// The low and the high of the node held last, at its own fact.
    pub fn last_split(&self) -> Option<(Root, Root)> {
        let last = self.engine.store().len().checked_sub(1)?;
        let node = self.engine.store().node(last)?;
        let root = Root::Inner(u32::try_from(last).ok()?);
        Some(self.engine.diagrams().split(node.fact as usize, root))
    }

    pub fn len(&self) -> usize
        ensures { result ≡ length (S.Store.nodes self.now.engine.store) }
    {
        self.engine.store().len()
    }
}

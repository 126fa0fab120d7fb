ghost use Rattle.std.specs.Prelude.{◌≡◌, ◌<◌, length, slice_index_or};
ghost use Rattle.kfdd.specs.Reduced.{level as level_of, Held};
ghost use Rattle.kfdd.specs.Splitting.{split as split_at};
ghost use Rattle.model.specs.Roots.{blank_node};
ghost use Rattle.model.specs.declared.decomposition.Decomposition.TheVariants.{Shannon};
ghost use Rattle.engine.specs.Questions.{types_of};

use arithmetic::Arithmetic;
use model::{Decomposition, Node, Order, Root};
use std::marker::PhantomData;
use storage::Store;

/// Diagrams to be read: the order of their facts, and the store in which their nodes lie.
#[derive(Clone, Copy)]
pub struct Diagrams<'a, A, S> {
    order: &'a Order,
    store: &'a S,
    arithmetic: PhantomData<A>,
}

impl<'a, A: Arithmetic, S: Store> Diagrams<'a, A, S> {
    pub fn new(order: &'a Order, store: &'a S) -> Diagrams<'a, A, S>
        ensures order { result.order.now ≡ order.now }
        ensures store { result.store.now ≡ store.now }
    {
        Diagrams {
            order,
            store,
            arithmetic: PhantomData,
        }
    }

    /// The low and the high of a root at a fact.
    // A plain pair, as a rule of the project asks: both are answered together, and taken apart where they are used.
    pub fn split(&self, fact: usize, root: Root) -> (Root, Root)
        requires held { Held A.Arithmetic.ring (length (S.Store.nodes self.now.store.now)) root }
        ensures { result ≡ split_at A.Arithmetic.ring (types_of self.now.order.now) (S.Store.nodes self.now.store.now) fact root }
    {
        if let Root::Inner(number) = root {
            let node = self.node(number);
            if node.fact as usize == fact {
                return (node.low, node.high);
            }
        }
        match self.decomposition(fact) {
            Decomposition::Shannon => (root, root),
            Decomposition::PositiveDavio | Decomposition::NegativeDavio => {
                (root, Root::Leaf(A::ZERO))
            }
        }
    }

    // A node's fact, and for a leaf the number of facts.
    pub(crate) fn level(&self, root: Root) -> usize
        requires held { Held A.Arithmetic.ring (length (S.Store.nodes self.now.store.now)) root }
        ensures { result ≡ level_of (types_of self.now.order.now) (S.Store.nodes self.now.store.now) root }
    {
        match root {
            Root::Leaf(_) => self.order.len(),
            Root::Inner(number) => self.node(number).fact as usize,
        }
    }

    // The type of a fact.
    pub(crate) fn decomposition(&self, fact: usize) -> Decomposition
        ensures { result ≡ slice_index_or (types_of self.now.order.now) fact Shannon }
    {
        self.order
            .fact(fact)
            .map_or(Decomposition::Shannon, |fact| fact.decomposition)
    }

    // The node with a number.
    fn node(&self, number: u32) -> Node
        requires held { number < length (S.Store.nodes self.now.store.now) }
        ensures { result ≡ slice_index_or (S.Store.nodes self.now.store.now) number blank_node }
    {
        self.store.node(number as usize).unwrap()
    }
}

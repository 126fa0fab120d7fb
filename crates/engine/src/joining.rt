ghost use Rattle.std.specs.Prelude.{◌≡◌, slice_index_or};
ghost use Rattle.kfdd.specs.Joining.{drops as drops_node, fact_parts as parts_of};
ghost use Rattle.model.specs.declared.decomposition.Decomposition.TheVariants.{Shannon};
ghost use Rattle.engine.specs.Questions.{types_of};

use crate::diagrams::Diagrams;
use arithmetic::Arithmetic;
use model::{Decomposition, Root};
use storage::Store;

impl<A: Arithmetic, S: Store> Diagrams<'_, A, S> {
    // Whether a node of a fact would be worth its low.
    // Two names, since a pair is no plainer: see `Engine::join`.
    pub(crate) fn drops(&self, fact: usize, low: Root, high: Root) -> bool
        ensures { result ≡ drops_node A.Arithmetic.ring (slice_index_or (types_of self.now.order.now) fact Shannon) low high }
    {
        match self.decomposition(fact) {
            Decomposition::Shannon => low == high,
            Decomposition::PositiveDavio | Decomposition::NegativeDavio => {
                high == Root::Leaf(A::ZERO)
            }
        }
    }

    // The low and the high of a fact by itself.
    pub(crate) fn fact_parts(&self, fact: usize) -> (Root, Root)
        ensures { result ≡ parts_of A.Arithmetic.ring (slice_index_or (types_of self.now.order.now) fact Shannon) }
    {
        match self.decomposition(fact) {
            Decomposition::Shannon | Decomposition::PositiveDavio => {
                (Root::Leaf(A::ZERO), Root::Leaf(A::ONE))
            }
            Decomposition::NegativeDavio => (Root::Leaf(A::ONE), Root::Leaf(A::minus(A::ONE))),
        }
    }
}

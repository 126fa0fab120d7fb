ghost use Rattle.std.specs.Prelude.{◌≡◌};
ghost use Rattle.kfdd.specs.RecipeLaws.{Joinable};
ghost use Rattle.engine.specs.Outcomes.{Joins};
ghost use Rattle.engine.specs.Questions.{types_of};
ghost use Rattle.engine.specs.Staying.{Stays};

use super::Engine;
use arithmetic::Arithmetic;
use model::{Fault, Node, Root};
use storage::{Memo, Store};

impl<A: Arithmetic, S: Store, M: Memo> Engine<A, S, M> {
    // Joins a fact, a low and a high. Nowhere else is a node added.
    // Two names, since a pair is no plainer: the low lies in a stage and the high is the last answer, so a pair would be
    // made only to be taken apart, here in the node and in each clause.
    pub(crate) fn join(&mut self, fact: u8, low: Root, high: Root) -> Result<Root, Fault>
        requires { Joinable A.Arithmetic.ring (types_of self.old.order) (S.Store.nodes self.old.store) fact low high }
        ensures joins { Joins A.Arithmetic.ring (types_of self.old.order) (S.Store.capacity self.old.store) (S.Store.nodes self.old.store) fact low high result (S.Store.nodes self.new.store) }
        ensures stays { Stays S.Store.capacity S.Store.lent M.Memo.lent self.old self.new }
        ensures memo { self.new.memo ≡ self.old.memo }
        ensures frames { self.new.frames ≡ self.old.frames }
    {
        if self.diagrams().drops(fact as usize, low, high) {
            return Ok(low);
        }
        let place = self.store.find_or_add(Node { fact, low, high })?;
        Ok(Root::Inner(place as u32))
    }
}

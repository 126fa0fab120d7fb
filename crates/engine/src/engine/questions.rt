ghost use Rattle.std.specs.Prelude.{◌≡◌, ◌<◌, length, IfOk};
ghost use Rattle.kfdd.specs.Appending.{Extends};
ghost use Rattle.kfdd.specs.Joining.{fact_root};
ghost use Rattle.kfdd.specs.Reduced.{Held};
ghost use Rattle.model.specs.Orders.{facts_of};
ghost use Rattle.engine.specs.Outcomes.{Comes};
ghost use Rattle.engine.specs.Questions.{outcome as outcome_of, types_of, RootsHeld};
ghost use Rattle.engine.specs.Runs.{answered, Does};
ghost use Rattle.engine.specs.Runs.{fact as fact_call, question as question_call};
ghost use Rattle.engine.specs.Staying.{Stays};

use super::Engine;
use crate::turn::Turn;
use arithmetic::Arithmetic;
use model::{Fault, Root};
use storage::{Memo, Question, Store};

impl<A: Arithmetic, S: Store, M: Memo> Engine<A, S, M> {
    /// The root of what is asked of roots that are held. It is worked out turn by turn.
    pub fn answer(&mut self, question: Question) -> Result<Root, Fault>
        requires held { RootsHeld A.Arithmetic.ring (S.Store.nodes self.old.store) question }
        ensures comes { Comes (λ c. outcome_of A.Arithmetic.ring (types_of self.old.order) c (S.Store.nodes self.old.store) question) (S.Store.capacity self.old.store) (S.Store.nodes self.old.store) result (S.Store.nodes self.new.store) }
        ensures does { Does A.Arithmetic.ring (types_of self.old.order) (S.Store.capacity self.old.store) (S.Store.nodes self.old.store) (question_call question) (answered result (S.Store.nodes self.new.store)) }
        ensures held { IfOk result (λ root. Held A.Arithmetic.ring (length (S.Store.nodes self.new.store)) root) }
        ensures grown { Extends (S.Store.nodes self.old.store) (S.Store.nodes self.new.store) }
        ensures stays { Stays S.Store.capacity S.Store.lent M.Memo.lent self.old self.new }
    {
        self.frames.clear();
        let mut turn = Turn::Ask(question);
        loop {
            turn = match turn {
                Turn::Ask(part) => self.begin(part),
                Turn::Answer(root) => {
                    if self.frames.is_empty() {
                        return Ok(root);
                    }
                    self.resume(root)?
                }
            };
        }
    }

    /// The root of a fact by itself.
    pub fn fact(&mut self, fact: usize) -> Result<Root, Fault>
        requires known { fact < length (facts_of self.old.order) }
        ensures comes { Comes (λ c. fact_root A.Arithmetic.ring (types_of self.old.order) c (S.Store.nodes self.old.store) fact) (S.Store.capacity self.old.store) (S.Store.nodes self.old.store) result (S.Store.nodes self.new.store) }
        ensures does { Does A.Arithmetic.ring (types_of self.old.order) (S.Store.capacity self.old.store) (S.Store.nodes self.old.store) (fact_call fact) (answered result (S.Store.nodes self.new.store)) }
        ensures held { IfOk result (λ root. Held A.Arithmetic.ring (length (S.Store.nodes self.new.store)) root) }
        ensures grown { Extends (S.Store.nodes self.old.store) (S.Store.nodes self.new.store) }
        ensures stays { Stays S.Store.capacity S.Store.lent M.Memo.lent self.old self.new }
    {
        let (low, high) = self.diagrams().fact_parts(fact);
        self.join(fact as u8, low, high)
    }
}

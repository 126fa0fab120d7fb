ghost use Rattle.std.specs.Prelude.{◌≡◌, ◌<◌, List, length, MatchResult};
ghost use Rattle.model.specs.Refusals.{fault};
ghost use Rattle.model.specs.declared.fault.Refusal.TheVariants.{StoreFull};
ghost use Rattle.engine.specs.Frames.{open_frames};
ghost use Rattle.engine.specs.Questions.{types_of};
ghost use Rattle.engine.specs.Underway.{Fits, Stops, TurnsTo, Underway};
ghost use Rattle.engine.specs.Staying.{Stays};

use super::Engine;
use crate::frame::Next;
use crate::shortcuts::at_once;
use crate::turn::Turn;
use arithmetic::Arithmetic;
use model::{Fault, Node, Root};
use storage::{Memo, Question, Store};

impl<A: Arithmetic, S: Store, M: Memo> Engine<A, S, M> {
    // Answers a question at once or from memory, or splits it and asks for its first part.
    pub(crate) fn begin(&mut self, question: Question) -> Turn
        requires fits { Fits A.Arithmetic.ring (types_of self.old.order) (S.Store.nodes self.old.store) (open_frames self.old.frames) (Turn.Ask question) }
        ensures turns { TurnsTo A.Arithmetic.ring (types_of self.old.order) (S.Store.capacity self.old.store) (S.Store.nodes self.old.store) (open_frames self.old.frames) (Turn.Ask question) (S.Store.nodes self.old.store) (open_frames self.new.frames) result }
        ensures order { self.new.order ≡ self.old.order }
        ensures store { self.new.store ≡ self.old.store }
        ensures memo { self.new.memo ≡ self.old.memo }
    {
        if let Some(root) = at_once::<A>(question).or_else(|| self.memo.ask(question)) {
            return Turn::Answer(root);
        }
        let (frame, first) = self.diagrams().divide(question);
        self.frames.push(frame);
        Turn::Ask(first)
    }

    // Hands an answer to the newest of the questions that wait, where it lies, and works that one out if it was the last.
    pub(crate) fn resume(&mut self, answer: Root) -> Result<Turn, Fault>
        requires fits { Fits A.Arithmetic.ring (types_of self.old.order) (S.Store.nodes self.old.store) (open_frames self.old.frames) (Turn.Answer answer) }
        requires underway { (start : List Node) × (first : Question) × Underway A.Arithmetic.ring (types_of self.old.order) (S.Store.capacity self.old.store) start first (S.Store.nodes self.old.store) (open_frames self.old.frames) (Turn.Answer answer) }
        requires waits { 0 < length (open_frames self.old.frames) }
        ensures turns { MatchResult result (λ t. TurnsTo A.Arithmetic.ring (types_of self.old.order) (S.Store.capacity self.old.store) (S.Store.nodes self.old.store) (open_frames self.old.frames) (Turn.Answer answer) (S.Store.nodes self.new.store) (open_frames self.new.frames) t) (λ e. (e ≡ fault StoreFull 0) × Stops A.Arithmetic.ring (types_of self.old.order) (S.Store.capacity self.old.store) (S.Store.nodes self.old.store) (open_frames self.old.frames) (Turn.Answer answer) (S.Store.nodes self.new.store)) }
        ensures stays { Stays S.Store.capacity S.Store.lent M.Memo.lent self.old self.new }
    {
        let newest = self.frames.len() - 1;
        match self.frames[newest].advance(answer) {
            Next::Ask(question) => Ok(Turn::Ask(question)),
            Next::Join(low, high) => {
                let frame = self.frames.pop().unwrap();
                let root = self.join(frame.fact, low, high)?;
                self.memo.keep(frame.question, root);
                Ok(Turn::Answer(root))
            }
        }
    }
}

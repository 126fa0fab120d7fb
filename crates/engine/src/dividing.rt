ghost use Rattle.std.specs.Prelude.{◌≡◌, None};
ghost use Rattle.kfdd.specs.Reduced.{Reduced};
ghost use Rattle.engine.specs.Questions.{shortcut, top_of, types_of, RootsHeld};
ghost use Rattle.engine.specs.Stages.{Divides};

use crate::diagrams::Diagrams;
use crate::frame::{Frame, Stage};
use arithmetic::Arithmetic;
use model::Decomposition;
use storage::{Question, Store};

// `RootsHeld` stays a clause: it is a fact of a question and a store together. A question is a plain value, kept in memos
// and frames while the store changes, so no type holds the two.
impl<A: Arithmetic, S: Store> Diagrams<'_, A, S> {
    // Splits a question at the topmost fact of its roots: its frame, and the part that is asked first.
    pub(crate) fn divide(&self, question: Question) -> (Frame, Question)
        requires reduced { Reduced A.Arithmetic.ring (types_of self.now.order.now) (S.Store.nodes self.now.store.now) }
        requires held { RootsHeld A.Arithmetic.ring (S.Store.nodes self.now.store.now) question }
        requires long { shortcut A.Arithmetic.ring question ≡ None }
        ensures { Divides A.Arithmetic.ring (types_of self.now.order.now) (S.Store.nodes self.now.store.now) question result.0 result.1 }
    {
        let fact = self.top(question);
        let (first, stage) = self.parts(question, fact);
        let frame = Frame {
            question,
            fact: fact as u8,
            stage,
        };
        (frame, first)
    }

    // The topmost fact of the roots.
    fn top(&self, question: Question) -> usize
        requires held { RootsHeld A.Arithmetic.ring (S.Store.nodes self.now.store.now) question }
        ensures { result ≡ top_of A.Arithmetic.ring (types_of self.now.order.now) (S.Store.nodes self.now.store.now) question }
    {
        match question {
            Question::Sum(a, b) | Question::Times(a, b) => self.level(a).min(self.level(b)),
            Question::Minus(a) => self.level(a),
        }
    }

    // The part that is asked first, at the topmost fact, and what is known and left by then.
    fn parts(&self, question: Question, fact: usize) -> (Question, Stage)
        requires reduced { Reduced A.Arithmetic.ring (types_of self.now.order.now) (S.Store.nodes self.now.store.now) }
        requires held { RootsHeld A.Arithmetic.ring (S.Store.nodes self.now.store.now) question }
        requires long { shortcut A.Arithmetic.ring question ≡ None }
        requires topmost { fact ≡ top_of A.Arithmetic.ring (types_of self.now.order.now) (S.Store.nodes self.now.store.now) question }
        ensures { Divides A.Arithmetic.ring (types_of self.now.order.now) (S.Store.nodes self.now.store.now) question (record { question = question; fact = fact; stage = result.1 }) result.0 }
    {
        match question {
            Question::Sum(a, b) => {
                let (a, b) = (self.split(fact, a), self.split(fact, b));
                let high = Question::Sum(a.1, b.1);
                (Question::Sum(a.0, b.0), Stage::Low(high))
            }
            Question::Minus(a) => {
                let a = self.split(fact, a);
                (Question::Minus(a.0), Stage::Low(Question::Minus(a.1)))
            }
            Question::Times(a, b) => {
                let (a, b) = (self.split(fact, a), self.split(fact, b));
                let low = Question::Times(a.0, b.0);
                match self.decomposition(fact) {
                    Decomposition::Shannon => (low, Stage::Low(Question::Times(a.1, b.1))),
                    Decomposition::PositiveDavio | Decomposition::NegativeDavio => {
                        (low, Stage::LowProduct(a, b))
                    }
                }
            }
        }
    }
}

ghost use Rattle.std.specs.Prelude.{◌≡◌, ℕ, List, []};
ghost use Rattle.storage.specs.Memos.{Keeps, NoneTwice, Recalls};
ghost use Rattle.storage.specs.declared.question.Answered.{Answered};

use crate::question::Question;
use model::Root;

/// A list of answered questions, no question twice.
pub trait Memo {
    // the questions that are answered
    ghost answers: { Self → List Answered };

    // the memory that was lent
    ghost lent: { Self → ℕ };

    /// The answer to a question, if it is there.
    fn ask(&self, question: Question) -> Option<Root>
        ensures { Recalls (answers self.now) question result };

    /// Takes an answered question in, perhaps, and may drop others.
    fn keep(&mut self, question: Question, answer: Root)
        ensures answers { Keeps (answers self.old) question answer (answers self.new) }
        ensures lent { lent self.new ≡ lent self.old };

    /// No answer is left.
    fn forget(&mut self)
        ensures answers { answers self.new ≡ [] }
        ensures lent { lent self.new ≡ lent self.old };

    // what every memo owes
    ghost once: { (m : Self) → NoneTwice (answers m) };
}

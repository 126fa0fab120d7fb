ghost use Rattle.std.specs.Prelude.{[]};

use crate::memo::Memo;
use crate::question::Question;
use model::Root;

/// A memo that never holds an answer.
#[derive(Clone, Copy, Debug, PartialEq, Eq)]
pub struct BlankMemo;

impl Memo for BlankMemo {
    ghost answers = { λ _. [] };

    ghost lent = { λ _. 0 };

    ghost once = { λ _. tt };

    fn ask(&self, _question: Question) -> Option<Root> {
        None
    }

    fn keep(&mut self, _question: Question, _answer: Root) {}

    fn forget(&mut self) {}
}

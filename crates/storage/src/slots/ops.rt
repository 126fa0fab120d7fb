ghost use Rattle.std.specs.Prelude.{◌≡◌, true, [], length};
ghost use Rattle.storage.specs.Memos.{Keeps};
ghost use Rattle.storage.specs.SlotMemos.{answers_of};
ghost use Rattle.storage.specs.Slots.{answers_in, home, once_at_home, Replaces};

use super::SlotMemo;
use crate::memo::Memo;
use crate::question::{Answered, Question};
use model::Root;

impl<'a> SlotMemo<'a> {
    /// A memo of no answers over these slots, whatever they held.
    pub fn new(slots: &'a mut [Option<Answered>]) -> SlotMemo<'a>
        ensures answers { answers_of result ≡ [] }
        ensures slots { result.slots.now ≡ slots.old }
        ensures lent { result.slots.ghost_name ≡ slots.entry.ghost_name }
    {
        SlotMemo { slots, used: false }
    }

    // The slot that a question's hash falls on.
    fn home(&self, question: Question) -> Option<usize>
        ensures { result ≡ home (length self.now.slots.now) question }
    {
        (question.hash() as usize).checked_rem(self.slots.len())
    }

    // Empties the slots, unless answers were kept in them.
    fn prepare(&mut self)
        ensures used { self.new.used ≡ true }
        ensures answers { answers_in self.new.slots.now ≡ answers_of self.old }
        ensures len { length self.new.slots.now ≡ length self.old.slots.now }
        ensures lent { self.new.slots.ghost_name ≡ self.old.slots.ghost_name }
    {
        if self.used {
            return;
        }
        self.slots.fill(None);
        self.used = true;
    }
}

impl Memo for SlotMemo<'_> {
    ghost answers = { answers_of };

    ghost lent = { λ m. m.slots.ghost_name };

    ghost once = { λ m. once_at_home m.used m.slots.now m.home };

    fn ask(&self, question: Question) -> Option<Root> {
        if !self.used {
            return None;
        }
        let home = self.home(question)?;
        let held = self.slots[home]?;
        (held.question == question).then_some(held.answer)
    }

    // Beside what the trait says, the new answer has its slot, and every answer in another stays.
    fn keep(&mut self, question: Question, answer: Root)
        ensures answers { Keeps (answers_of self.old) question answer (answers_of self.new) }
        ensures lent { self.new.slots.ghost_name ≡ self.old.slots.ghost_name }
        ensures slot { Replaces (length self.old.slots.now) (answers_of self.old) question answer (answers_of self.new) }
    {
        let Some(home) = self.home(question) else {
            return;
        };
        self.prepare();
        self.slots[home] = Some(Answered { question, answer });
    }

    // The slots are emptied once the next answer comes.
    fn forget(&mut self) {
        self.used = false;
    }
}
